// Each run of the cases to its end, and at each of its answers every forged state handed back: what is answered, and whether a lent
// slice changed.
use crate::case::Case;
use crate::forge::{Forgery, Side};
use crate::said::End;
use crate::size::Size;
use crate::tally::{Sides, Tally};
use bdf::{begin, go_on};
use rules::types::{Answer, Refusal, Reply, Run, Tolerance, Turn};
use std::fmt;
use std::fmt::Write;
use text::Page;

// The end of a run with all forgeries and, beside it, the end of the same run with none.
pub(crate) fn run(page: &mut Page, tally: &mut Tally, case: Case) -> fmt::Result {
    let n = case.size.n;
    let forged = End(driven(case, Some(tally)));
    let alone = End(driven(case, None));
    writeln!(page, "run n {n}: {forged}; alone: {alone}")
}

// How a run ended, on whose states the forgeries were tried if there is a tally of them. Every run ends, but what this program knows of
// the solver does not say so: its turns are counted, to a number that no run here reaches.
fn driven(case: Case, mut tally: Option<&mut Tally>) -> Turn {
    let mut driver = Driver::new(case);
    let mut turn = driver.begin();
    for turns in 0..1000000u64 {
        if let Some(tally) = &mut tally {
            turn.run = driver.sweep(tally, turn);
        }
        if has_ended(turn.answer) {
            break;
        }
        turn = driver.go_on(turn, case.modifies && turns % 32 == 3);
    }
    turn
}

fn has_ended(answer: Answer) -> bool {
    matches!(answer, Answer::End { .. } | Answer::Refused(_))
}

// A run, and what is lent to its calls. Of workspace and question slice so much is lent as is just enough.
#[derive(Drop)]
struct Driver {
    case: Case,
    workspace: [f64; 3104],
    questions: [f64; 256],
    values: [f64; 1024],
}

impl Driver {
    fn new(case: Case) -> Driver {
        Driver {
            case,
            workspace: [0.0; 3104],
            questions: [0.0; 256],
            values: [0.0; 1024],
        }
    }

    fn begin(&mut self) -> Turn {
        let y = [1.0f64; 32];
        let case = self.case;
        let tolerance = Tolerance::Scalar(case.tolerance);
        let workspace = &mut self.workspace[..];
        let questions = &mut self.questions[..];
        begin(
            case.settings(),
            0.0,
            &y[..case.size.n],
            10.0,
            tolerance,
            &[],
            tolerance,
            &[],
            &mut workspace[..case.size.room()],
            &mut questions[..case.size.questions()],
        )
    }

    // The reply to what the run said.
    fn go_on(&mut self, said: Turn, modifies: bool) -> Turn {
        let case = self.case;
        self.fill(said.answer);
        let workspace = &mut self.workspace[..];
        let questions = &mut self.questions[..];
        go_on(
            said.run,
            suited(said.answer, modifies),
            &self.values,
            &mut workspace[..case.size.room()],
            &mut questions[..case.size.questions()],
        )
    }

    // The numbers of a reply: a derivative, a Jacobian, or half the state for a modification.
    fn fill(&mut self, answer: Answer) {
        let case = self.case;
        let y = &self.questions[..case.size.n];
        match answer {
            Answer::Derivative(_) => scale(&mut self.values, y, -case.rate, -case.rate),
            Answer::Jacobian(_) => diagonal(&mut self.values, case.size, -case.rate * case.slope),
            _ => scale(&mut self.values, y, 0.5, 0.0),
        }
    }

    // The state with which the run goes on, once every forged one was tried on it.
    fn sweep(&mut self, tally: &mut Tally, said: Turn) -> Run {
        let reply = unsuited(said.answer);
        let mut run = said.run;
        for (forgery, sides) in Forgery::ALL.iter().zip(tally.forgeries.iter_mut()) {
            run = self.tried(*forgery, sides, run, reply);
        }
        tally.note_place(run.awaited);
        run
    }

    // One forgery, beyond its bound and then at it. The state is still the run's own, and where that was handed over, as it came back.
    fn tried(&mut self, forgery: Forgery, sides: &mut Sides, run: Run, reply: Reply) -> Run {
        let mut own = run;
        for side in Side::BOTH {
            if let Some(expected) = forgery.expected(side, &own) {
                let before = self.sums();
                let turn = self.handed_over(forgery.forged(side, own), reply);
                sides.note(
                    side,
                    is_refused(turn.answer, expected),
                    differing(before, self.sums()),
                );
                if forgery == Forgery::Nothing {
                    own = turn.run;
                }
            }
        }
        own
    }

    // A state with a reply that has no numbers.
    fn handed_over(&mut self, run: Run, reply: Reply) -> Turn {
        let case = self.case;
        let workspace = &mut self.workspace[..];
        let questions = &mut self.questions[..];
        go_on(
            run,
            reply,
            &[],
            &mut workspace[..case.size.room()],
            &mut questions[..case.size.questions()],
        )
    }

    // The checksums of the two lent slices.
    fn sums(&self) -> [u64; 2] {
        let case = self.case;
        [
            mixed(&self.workspace[..case.size.room()]),
            mixed(&self.questions[..case.size.questions()]),
        ]
    }
}

// ---- the replies

fn suited(answer: Answer, modifies: bool) -> Reply {
    match answer {
        Answer::Start(x) if modifies => Reply::Modified(x),
        Answer::Step { new, .. } if modifies => Reply::Modified(new),
        Answer::Start(_) | Answer::Step { .. } => Reply::Continue,
        _ => Reply::Values,
    }
}

fn unsuited(answer: Answer) -> Reply {
    match answer {
        Answer::Derivative(_) => Reply::Continue,
        Answer::Jacobian(_) => Reply::Interrupt,
        _ => Reply::Values,
    }
}

// The first by a factor, each next by `more` than the one before it.
fn scale(values: &mut [f64], y: &[f64], first: f64, more: f64) {
    let mut factor = first;
    for (value, y) in values.iter_mut().zip(y.iter()) {
        *value = factor * *y;
        factor += more;
    }
}

// The diagonal of n rows of n numbers. It runs on behind them, where no one reads.
fn diagonal(values: &mut [f64], size: Size, first: f64) {
    let mut entry = first;
    values.fill(0.0);
    for value in values.iter_mut().step_by(size.n + 1) {
        *value = entry;
        entry += first;
    }
}

// ---- what came of a forgery

fn is_refused(answer: Answer, expected: Refusal) -> bool {
    match answer {
        Answer::Refused(why) => lines::number_of(why) == lines::number_of(expected),
        _ => false,
    }
}

// How many of the two checksums differ.
fn differing(before: [u64; 2], after: [u64; 2]) -> u64 {
    u64::from(before[0] != after[0]) + u64::from(before[1] != after[1])
}

// A checksum over the bits of the numbers. Each turn is a bijection of the sum so far: a change of one number always shows.
fn mixed(numbers: &[f64]) -> u64 {
    let mut sum = 0u64;
    for number in numbers {
        let more = sum.rotate_left(7).wrapping_add(text::bits(*number));
        sum = more ^ more >> 29;
    }
    sum
}
