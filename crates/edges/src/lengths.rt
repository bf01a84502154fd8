// How long the lent slices must be: each once just long enough and once one number shorter.
ghost use Rattle.std.specs.Prelude.{◌≤◌};
ghost use Rattle.edges.specs.Reach.{Reached};

use crate::said::Said;
use crate::size::Size;
use bdf::{begin, go_on};
use rules::settings::BDF;
use rules::types::{Answer, Reply, Tolerance, Turn};
use std::fmt;
use std::fmt::Write;
use text::Page;

pub(crate) fn all(page: &mut Page) -> fmt::Result {
    for lent in beginnings() {
        let said = Said(lent.begun().answer);
        writeln!(page, "begin {lent}: {said}")?;
    }
    going_on(page, Size { n: 32 })?;
    going_on(page, Size { n: 1 })
}

// ---- beginnings

// How many numbers a beginning is lent: components, workspace, question slice, relative and absolute tolerances.
#[derive(Clone, Copy)]
struct Lent {
    n: usize,
    room: usize,
    questions: usize,
    relative: usize,
    absolute: usize,
    ghost reached: { Reached n room questions relative absolute },
}

// With 32 components, with more than there may be, with one and with none. Of two slices that are short the one that is
// checked first is told.
fn beginnings() -> [Lent; 15] {
    [
        Lent::new(32, 3104, 256, 32, 32),
        Lent::new(32, 3103, 256, 32, 32),
        Lent::new(32, 3104, 255, 32, 32),
        Lent::new(32, 3104, 256, 31, 32),
        Lent::new(32, 3104, 256, 32, 31),
        Lent::new(32, 3103, 255, 31, 31),
        Lent::new(32, 3104, 255, 31, 31),
        Lent::new(33, 3104, 256, 32, 32),
        Lent::new(33, 0, 0, 0, 0),
        Lent::new(1, 35, 8, 1, 1),
        Lent::new(1, 34, 8, 1, 1),
        Lent::new(1, 35, 7, 1, 1),
        Lent::new(1, 35, 8, 0, 1),
        Lent::new(1, 35, 8, 1, 0),
        Lent::new(0, 0, 0, 0, 0),
    ]
}

impl Lent {
    fn new(n: usize, room: usize, questions: usize, relative: usize, absolute: usize) -> Lent
        requires { Reached n room questions relative absolute }
    {
        Lent {
            n,
            room,
            questions,
            relative,
            absolute,
        }
    }

    // What is said to a beginning with the fronts of arrays that are so long.
    fn begun(&self) -> Turn {
        let y = [1.0f64; 33];
        let rtols = [1e-3f64; 32];
        let atols = [1e-6f64; 32];
        let mut ws = [0.0f64; 3104];
        let mut q = [0.0f64; 256];
        begin(
            BDF::new(),
            0.0,
            &y[..self.n],
            1.0,
            Tolerance::Vector,
            &rtols[..self.relative],
            Tolerance::Vector,
            &atols[..self.absolute],
            &mut ws[..self.room],
            &mut q[..self.questions],
        )
    }
}

// `n 32 workspace 3104 question 256 tolerances 32 32`.
impl fmt::Display for Lent {
    fn fmt<W: fmt::Write>(&self, f: &mut fmt::Formatter<W>) -> fmt::Result {
        write!(
            f,
            "n {} workspace {} question {} tolerances {} {}",
            self.n, self.room, self.questions, self.relative, self.absolute,
        )
    }
}

// ---- going on

// Derivative, Jacobian, the start's derivative, the start notice, and the two that follow a modification.
const ANSWERS: usize = 6;

// A run of y' = 0 by its first answers, each gone on from with every slice short in turn before it is gone on from in full.
fn going_on(page: &mut Page, size: Size) -> fmt::Result {
    let y = [1.0f64; 32];
    let mut ws = [0.0f64; 3104];
    let mut q = [0.0f64; 256];
    let ws = &mut ws[..size.room()];
    let q = &mut q[..size.questions()];
    let mut turn = begin(
        BDF::new(),
        0.0,
        &y[..size.n],
        1.0,
        Tolerance::Scalar(1e-3),
        &[],
        Tolerance::Scalar(1e-6),
        &[],
        ws,
        q,
    );
    for _ in 0..ANSWERS {
        turn = gone_on(page, turn, size, ws, q)?;
    }
    Ok(())
}

// What is one number short.
#[derive(Clone, Copy, PartialEq, Eq)]
enum Short {
    Workspace,
    Questions,
    Values,
    Nothing,
}

impl Short {
    const EACH: [Short; 4] = [
        Short::Workspace,
        Short::Questions,
        Short::Values,
        Short::Nothing,
    ];
}

// One answer: each way on the state that the one before handed back, with a line as
// `go on workspace 3104 question 256 reply 32: J`.
fn gone_on(
    page: &mut Page,
    first: Turn,
    size: Size,
    ws: &mut [f64],
    q: &mut [f64],
) -> Result<Turn, fmt::Error> {
    let values = [0.0f64; 1024];
    let reply = suited(first.answer);
    let wanted = size.wanted(first.answer);
    let mut turn = first;
    for short in Short::EACH {
        let room = less(ws.len(), short == Short::Workspace);
        let questions = less(q.len(), short == Short::Questions);
        let given = less(wanted, short == Short::Values);
        turn = go_on(
            turn.run,
            reply,
            &values[..given],
            &mut ws[..room],
            &mut q[..questions],
        );
        let said = Said(turn.answer);
        writeln!(
            page,
            "go on workspace {room} question {questions} reply {given}: {said}"
        )?;
    }
    Ok(turn)
}

// One fewer where it is to be short.
fn less(n: usize, short: bool) -> usize
    ensures { result ≤ n }
{
    if short { n.saturating_sub(1) } else { n }
}

fn suited(answer: Answer) -> Reply {
    match answer {
        Answer::Derivative(_) | Answer::Jacobian(_) => Reply::Values,
        Answer::Start(x) => Reply::Modified(x),
        _ => Reply::Continue,
    }
}
