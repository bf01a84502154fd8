// A listing, page by page: each call fills the lent page with as many whole lines as it has room for.
ghost use Rattle.std.specs.Prelude.{◌≡◌, ◌*◌, ◌≤◌, length, Some};
ghost use Rattle.matrix.specs.Size.{max_n};
ghost use Rattle.text.specs.Page.{puts};
ghost use Rattle.lines.specs.Lines.{refusal_line};
ghost use Rattle.rules.specs.State.{after};
ghost use Rattle.listing.specs.declared.pages.Stop.TheVariants.{Not};
ghost use Rattle.listing.specs.Pages.{over_of, page_of, enough, sheet_of, given_of, refused_at, paged_of, next_page};
ghost use Rattle.listing.specs.Pages.{onward as onward_of, answered as answered_of, filled as filled_of};

use crate::answer::answer_line;
use crate::opening::{Listing, QUESTION, Said, WORKSPACE, due};
use crate::replies::{replied, waits};
use bdf::types::{Run, Turn};
use job::CELLS;
use matrix::MAX_N;

// A page that was given: its text stands in the first `length` bytes of what was lent for it.
#[derive(Clone, Copy)]
pub struct Page {
    pub listing: Listing,
    pub length: usize,
}

// A page under way: what the run said last, how much is written, and why it stops.
#[derive(Clone, Copy)]
struct Sheet {
    turn: Turn,
    length: usize,
    stop: Stop,
}

#[derive(Clone, Copy)]
enum Stop {
    Not,
    NoRoom,
    AtEnd,
}

// More answers than any run has.
const ENOUGH: u64 = u64::MAX;

// The next page of a listing, given A and both slices as the call before left them. Where there is no room for its first line the page
// stays empty and the line is due on the one after it; 1,024 bytes have room for any line.
pub fn next_page(
    l: Listing,
    a: &[f64; CELLS],
    ws: &mut [f64; WORKSPACE],
    q: &mut [f64; QUESTION],
    out: &mut [u8],
) -> Page
    ensures { (after result ws.new q.new, out.new) ≡ next_page a.now (after l ws.old q.old) out.old }
{
    let Listing { said, run } = l;
    match said {
        Said::Told(answer) => paged(Turn { answer, run }, a, ws, q, out),
        Said::NoJob(number) => refused(number, run, out),
        Said::Over => page_of(over(run), 0),
    }
}

fn page_of(listing: Listing, length: usize) -> Page
    ensures { result ≡ page_of listing length }
{
    Page { listing, length }
}

fn over(run: Run) -> Listing
    ensures { result ≡ over_of run }
{
    Listing {
        said: Said::Over,
        run,
    }
}

// The line of a file's refusal.
fn refused(number: u64, run: Run, out: &mut [u8]) -> Page
    ensures { (result, out.new) ≡ refused_at number run (puts (refusal_line number) (Some 0, out.old)) }
{
    let mut page = text::Page::new(out);
    lines::refusal_line(&mut page, number);
    match page.place() {
        Some(length) => page_of(over(run), length),
        None => {
            let said = Said::NoJob(number);
            page_of(Listing { said, run }, 0)
        }
    }
}

// The arrays as slices; their types say how long they are.
fn paged(
    turn: Turn,
    a: &[f64; CELLS],
    ws: &mut [f64; WORKSPACE],
    q: &mut [f64; QUESTION],
    out: &mut [u8],
) -> Page
    ensures { (after result ws.new q.new, out.new) ≡ paged_of (filled_of enough a.now (sheet_of (after turn ws.old q.old) 0 Not, out.old)) }
{
    given(filled(turn, a, ws, q, out))
}

// Answer by answer, until a line has no room or the listing ends.
fn filled(turn: Turn, a: &[f64], ws: &mut [f64], q: &mut [f64], out: &mut [u8]) -> Sheet
    requires { (length a.now ≡ max_n * max_n) × (length q.old ≡ 8 * max_n) }
    ensures { (after result ws.new q.new, out.new) ≡ filled_of enough a.now (sheet_of (after turn ws.old q.old) 0 Not, out.old) }
{
    let mut slope = [0.0f64; MAX_N];
    let mut s = Sheet {
        turn,
        length: 0,
        stop: Stop::Not,
    };
    for _ in 0..ENOUGH {
        match s.stop {
            Stop::Not => answered(&mut s, a, &mut slope, ws, q, out),
            Stop::NoRoom | Stop::AtEnd => break,
        }
    }
    s
}

// The line of the last answer, and the reply to it. Where the line has no room nothing is replied.
fn answered(
    s: &mut Sheet,
    a: &[f64],
    slope: &mut [f64; MAX_N],
    ws: &mut [f64],
    q: &mut [f64],
    out: &mut [u8],
)
    requires { (s.old.length ≤ length out.old) × ((length a.now ≡ max_n * max_n) × (length q.old ≡ 8 * max_n)) }
    ensures { (after s.new ws.new q.new, out.new) ≡ answered_of a.now (after s.old ws.old q.old, out.old) }
{
    let mut page = text::Page::at(out, s.length);
    answer_line(&mut page, &s.turn, q);
    match page.place() {
        Some(next) => onward(s, next, a, slope, ws, q),
        None => s.stop = Stop::NoRoom,
    }
}

// Past the line of an answer: the reply to it, or the listing's end.
fn onward(
    s: &mut Sheet,
    next: usize,
    a: &[f64],
    slope: &mut [f64; MAX_N],
    ws: &mut [f64],
    q: &mut [f64],
)
    requires { (length a.now ≡ max_n * max_n) × (length q.old ≡ 8 * max_n) }
    ensures { after s.new ws.new q.new ≡ onward_of a.now (after s.old.turn ws.old q.old) next }
{
    s.length = next;
    if waits(s.turn.answer) {
        replied(&mut s.turn, a, slope, ws, q);
        s.stop = Stop::Not;
    } else {
        s.stop = Stop::AtEnd;
    }
}

// The page that a sheet comes to.
fn given(s: Sheet) -> Page
    ensures { result ≡ given_of s }
{
    let Sheet { turn, length, stop } = s;
    match stop {
        Stop::Not | Stop::NoRoom => page_of(due(turn), length),
        Stop::AtEnd => page_of(over(turn.run), length),
    }
}
