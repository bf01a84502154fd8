// The run: the solver asks, the circuit answers, and what the notices tell of V2 is kept.
//
// The circuit is two capacitors C, each with a resistor R beside it to ground, and a third R from one to the other. R C is one
// second, V1 begins at one volt and V2 at none:
//
//     V1' = -V1 + (V2 - V1)
//     V2' = -V2 + (V1 - V2)
use bdf::settings::BDF;
use bdf::types::{Answer, Reply, Run, Tolerance, Turn};
use bdf::{begin, go_on};
use interpolation::interpolate;

// V2 at HALF_WAY and at XEND. There are none but of a run that reached the end: an unfinished one has none to be mistaken for them.
#[derive(Clone, Copy)]
pub struct Voltages {
    pub middle: f64,
    pub end: f64,
}

// Why there are none.
#[derive(Clone, Copy)]
pub enum Failure {
    Unfinished,
    Refused,
}

// What the notices have told of V2 so far: at HALF_WAY, once a step has passed it, and where the last step ended.
#[derive(Clone, Copy)]
struct Seen {
    middle: Option<f64>,
    last: f64,
}

// The number of components, n.
const N: usize = 2;

const WORKSPACE: usize = 2 * N * N + 33 * N;

const QUESTION: usize = 8 * N;

// What the solver wants of slices: 2n² + 33n numbers to work in, and 8n for what it asks and tells.
#[derive(Drop)]
struct Room {
    ws: [f64; WORKSPACE],
    q: [f64; QUESTION],
}

const HALF_WAY: f64 = 0.5;

const XEND: f64 = 1.0;

// A run ends by itself, but that is not what this program is proved by: it has a number of turns that no run uses up.
pub fn discharge() -> Result<Voltages, Failure> {
    let mut room = Room {
        ws: [0.0; WORKSPACE],
        q: [0.0; QUESTION],
    };
    let mut turn = begin(
        guarded(),
        0.0,
        &[1.0, 0.0],
        XEND,
        Tolerance::Scalar(1e-6),
        &[],
        Tolerance::Scalar(1e-9),
        &[],
        &mut room.ws,
        &mut room.q,
    );
    let mut seen = Seen {
        middle: None,
        last: 0.0,
    };
    for _ in 0..u64::MAX {
        if !waits(turn.answer) {
            break;
        }
        seen.look(turn.answer, &room.q);
        turn = replied(turn, &mut room);
    }
    came_to(turn.answer, seen)
}

// A model that blows up is to say so by its end.
fn guarded() -> BDF {
    let mut settings = BDF::new();
    settings.guarded = true;
    settings
}

// Whether the run waits for a reply.
fn waits(answer: Answer) -> bool {
    !matches!(answer, Answer::End { .. } | Answer::Refused(_))
}

// The reply that the answer calls for, and what the run then says.
fn replied(turn: Turn, room: &mut Room) -> Turn {
    match turn.answer {
        Answer::Derivative(_) => derivative(turn.run, room),
        Answer::Jacobian(_) => jacobian(turn.run, room),
        _ => go_on(turn.run, Reply::Continue, &[], &mut room.ws, &mut room.q),
    }
}

// V1' and V2' at the state that is asked about, which stands in the first n places of q.
fn derivative(run: Run, room: &mut Room) -> Turn {
    let [v1, v2, ..] = room.q;
    let slopes = [-v1 + (v2 - v1), -v2 + (v1 - v2)];
    go_on(run, Reply::Values, &slopes, &mut room.ws, &mut room.q)
}

// By rows: V1' by V1 and by V2, then V2' by V1 and by V2. They are the same at every state.
fn jacobian(run: Run, room: &mut Room) -> Turn {
    let slopes = [-2.0, 1.0, 1.0, -2.0];
    go_on(run, Reply::Values, &slopes, &mut room.ws, &mut room.q)
}

impl Seen {
    // Only the notice of a step tells of V2: what a question is about may be tried and given up. A step begins where the one before it
    // ended, so that just one has HALF_WAY in it. `start` says where; the notice's `old` is rounded.
    fn look(&mut self, answer: Answer, q: &[f64; QUESTION]) {
        if let Answer::Step { new, start, h, .. } = answer {
            self.last = q[1];
            if start < HALF_WAY && HALF_WAY <= new {
                self.middle = between(q, start, h);
            }
        }
    }
}

// V2 at HALF_WAY by the step's polynomial, whose 7n coefficients stand in q behind the n numbers of the state. Only slices of another
// length are refused.
fn between(q: &[f64; QUESTION], start: f64, h: f64) -> Option<f64> {
    let mut y = [0.0f64; N];
    interpolate(HALF_WAY, &mut y, &q[N..], start, h).ok()?;
    Some(y[1])
}

// Success alone means that XEND was reached, where the last step then ended; and who has come there has passed HALF_WAY. Where the run
// still waits the turns were used up.
fn came_to(answer: Answer, seen: Seen) -> Result<Voltages, Failure> {
    match answer {
        Answer::End { status, .. } if status.reached() => {
            let middle = seen.middle.ok_or(Failure::Unfinished)?;
            let end = seen.last;
            Ok(Voltages { middle, end })
        }
        Answer::Refused(_) => Err(Failure::Refused),
        _ => Err(Failure::Unfinished),
    }
}
