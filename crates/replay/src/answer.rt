// What a run says, as a line: a question, a notice, the end or a refusal.
use crate::components::Components;
use crate::fields;
use crate::run::QUESTION;
use crate::solver::{Answer, Kind, Refusal, Turn};
use text::Page;

// A question or a notice has x behind its letter, and then the state, which stands in front of the question slice. A step's notice has
// four numbers in the place of x, and the coefficients behind the state.
pub(crate) fn line(page: &mut Page, turn: &Turn, n: Components, q: &[f64; QUESTION]) {
    let state = &q[..n.state()];
    match turn.answer {
        Answer::Derivative(x) => about(page, b'D', &[x], state),
        Answer::Jacobian(x) => about(page, b'J', &[x], state),
        Answer::Start(x) => about(page, b'I', &[x], state),
        Answer::Step { old, new, start, h } => {
            about(page, b'S', &[old, new, start, h], &q[..n.step()]);
        }
        Answer::End { status, h } => {
            let at = &turn.run.at;
            lines::end_line(page, status, h, at.steps, at.evals);
        }
        Answer::Refused(why) => refused(page, why),
    }
}

fn about(page: &mut Page, letter: u8, first: &[f64], shown: &[f64]) {
    page.put_byte(letter);
    fields::put(page, first);
    fields::put(page, shown);
    page.put_byte(b'\n');
}

fn refused(page: &mut Page, why: Refusal) {
    fields::refusal(page, why);
    match why {
        Refusal::NegativeTolerance { kind, index, value } => {
            page.put_bytes(&[b' ', letter(kind)]);
            fields::put(page, &[index]);
            fields::put(page, &[value]);
        }
        Refusal::ZeroFirstStep { value, direction } => fields::put(page, &[value, direction]),
        _ => {}
    }
    page.put_byte(b'\n');
}

// Which of the tolerances.
fn letter(kind: Kind) -> u8 {
    match kind {
        Kind::Relative => b'r',
        Kind::Absolute => b'a',
    }
}
