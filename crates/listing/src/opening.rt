// The beginning of a listing: the file is read, and its run begun.
ghost use Rattle.std.specs.Prelude.{◌≡◌, ◌≤◌, length, take};
ghost use Rattle.matrix.specs.Size.{max_n};
ghost use Rattle.rules.specs.State.{after};
ghost use Rattle.rules.specs.Calls.{beginning};
ghost use Rattle.job.specs.Reading.{configuration_of};
ghost use Rattle.listing.specs.Pages.{due_of, begun_with, refused_of, opened};

use crate::replies::waits;
use bdf::begin;
use bdf::settings::BDF;
use bdf::types::{Answer, Run, Tolerance, Turn};
use job::{CELLS, Job};
use matrix::MAX_N;

// What the solver wants of slices for MAX_N components: 2n² + 33n numbers, and 8n.
pub const WORKSPACE: usize = 2 * CELLS + 33 * MAX_N;

pub const QUESTION: usize = 8 * MAX_N;

// What was said last, whose line is due.
#[derive(Clone, Copy)]
pub enum Said {
    // By the solver. A question has no line.
    Told(Answer),
    // The file is no job: it is refused by this number, and nothing was begun.
    // Stays a number: `next_page` prints any, and `page_gave` and `page_yields` hold of any.
    NoJob(u64),
    // Every line was given.
    Over,
}

// Where a listing has come to: it goes into every call by value and comes back.
#[derive(Clone, Copy)]
pub struct Listing {
    pub said: Said,
    pub run: Run,
}

// Reads a file and begins its run, with what `ws` and `q` hold. A goes to the first n² places of `a` where the run begins; where the
// file is no job, or the solver refuses it, nothing lent changes.
pub fn open(
    file: &[u8],
    a: &mut [f64; CELLS],
    ws: &mut [f64; WORKSPACE],
    q: &mut [f64; QUESTION],
) -> Listing
    ensures { (after result ws.new q.new, a.new) ≡ opened file.now a.old ws.old q.old }
{
    let mut y0 = [0.0f64; MAX_N];
    let mut cells = [0.0f64; CELLS];
    match job::read(file, &mut y0, &mut cells) {
        Ok(j) => begun(j, &y0, &cells, a, ws, q),
        Err(why) => refused(why.number()),
    }
}

// The arrays as slices; their types say how long they are.
fn begun(
    j: Job,
    y0: &[f64; MAX_N],
    cells: &[f64; CELLS],
    a: &mut [f64; CELLS],
    ws: &mut [f64; WORKSPACE],
    q: &mut [f64; QUESTION],
) -> Listing
    requires { j.n ≤ max_n }
    ensures { (after result ws.new q.new, a.new) ≡ begun_with (beginning (configuration_of j (take j.n y0.now)) ws.old q.old) cells.now a.old }
{
    fitted(j, y0, cells, a, ws, q)
}

// The beginning, with the first n places of y0; the cells are kept where it asks.
fn fitted(
    j: Job,
    y0: &[f64],
    cells: &[f64],
    a: &mut [f64],
    ws: &mut [f64],
    q: &mut [f64],
) -> Listing
    requires { (j.n ≤ max_n) × ((length y0.now ≡ max_n) × (length cells.now ≡ length a.old)) }
    ensures { (after result ws.new q.new, a.new) ≡ begun_with (beginning (configuration_of j (take j.n y0.now)) ws.old q.old) cells.now a.old }
{
    let n = j.n;
    let turn = begin(
        job::settings(j),
        j.x0,
        &y0[..n],
        j.xend,
        Tolerance::Scalar(j.rtol),
        &[],
        Tolerance::Scalar(j.atol),
        &[],
        ws,
        q,
    );
    if waits(turn.answer) {
        a.copy_from_slice(cells);
    }
    due(turn)
}

// The line of a turn's answer is due.
pub(crate) fn due(turn: Turn) -> Listing
    ensures { result ≡ due_of turn }
{
    Listing {
        said: Said::Told(turn.answer),
        run: turn.run,
    }
}

// A file that is refused has no run: its state is that of a run with nothing to do, which has ended.
fn refused(number: u64) -> Listing
    ensures { result ≡ refused_of number }
{
    let turn = begin(
        BDF::new(),
        0.0,
        &[],
        0.0,
        Tolerance::Scalar(0.0),
        &[],
        Tolerance::Scalar(0.0),
        &[],
        &mut [],
        &mut [],
    );
    Listing {
        said: Said::NoJob(number),
        run: turn.run,
    }
}
