// The line of an answer: one for a notice, for the end and for a refusal, none for a question.
ghost use Rattle.std.specs.Prelude.{◌≡◌, true, length, take};
ghost use Rattle.text.specs.Page.{SamePage, puts, room_for, seen};
ghost use Rattle.listing.specs.Printed.{answer_line};

use bdf::types::{Answer, Turn};
use text::Page;

// The state told stands in the first places of q, as many as there are components. A forged state may say more of them than q has places.
pub(crate) fn answer_line(page: &mut Page, turn: &Turn, q: &[f64])
    requires { room_for 0 page.old.place (length page.old.bytes.now) ≡ true }
    ensures put { seen page.new ≡ puts (answer_line turn.now.answer (take turn.now.run.at.n q.now) turn.now.run.at.steps turn.now.run.at.evals) (seen page.old) }
    ensures same { SamePage page.old page.new }
{
    let p = &turn.run.at;
    let y = &q[..p.n.min(q.len())];
    match turn.answer {
        Answer::Derivative(_) | Answer::Jacobian(_) => {}
        Answer::Start(x) => lines::start_line(page, x, y),
        Answer::Step { new, .. } => lines::step_line(page, new, y),
        Answer::End { status, h } => lines::end_line(page, status, h, p.steps, p.evals),
        Answer::Refused(why) => lines::refusal_line(page, lines::number_of(why)),
    }
}
