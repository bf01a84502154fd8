// The job program: reads a packed job from standard input and prints its listing, page by page. Where a read fails nothing is printed,
// and where a write fails it stops; both are said on standard error, and not by the exit status.
#![tactic(auto)]

use job::CELLS;
use listing::{Listing, QUESTION, Said, WORKSPACE};
use std::fmt;
use std::io::{Read, Stdin, Stdout};

// One byte more than the longest job has shows that a file is too long; no more of it is read.
const ENOUGH: usize = job::LONGEST + 1;

// The bytes of a page: many, so that few calls write a listing.
const PAGE: usize = 65536;

#[derive(Clone, Copy)]
enum Failure {
    NotRead,
    NotWritten,
}

impl fmt::Display for Failure {
    fn fmt<W: fmt::Write>(&self, f: &mut fmt::Formatter<W>) -> fmt::Result {
        f.write_str(match self {
            Failure::NotRead => "standard input was not read",
            Failure::NotWritten => "standard output was not written",
        })
    }
}

fn main(rt: HostRuntime) {
    if let Err(failure) = run(&rt) {
        let _ = eprintln!(rt; "run_job: {failure}");
    }
}

fn run(rt: &HostRuntime) -> Result<(), Failure> {
    // Stays four arrays: a struct of them is copied whole where it is made, over 40 KB, which a short job feels.
    let mut file = [0u8; ENOUGH];
    let mut a = [0.0f64; CELLS];
    let mut ws = [0.0f64; WORKSPACE];
    let mut q = [0.0f64; QUESTION];
    let len = input::full(&mut rt.stdin(), &mut file);
    if len < ENOUGH && !is_at_end(rt.stdin()) {
        return Err(Failure::NotRead);
    }
    let first = listing::open(&file[..len], &mut a, &mut ws, &mut q);
    print(rt.stdout(), first, &a, &mut ws, &mut q)
}

// Whether there is nothing more to read: a read that fails stops as the end does, and only the end gives nothing without failing.
fn is_at_end(mut from: Stdin) -> bool {
    matches!(from.read(&mut [0u8; 1]), Ok(0))
}

// Every page of a listing. That its pages end, and that each has a line, is proved of the listing and not used here: the pages are
// counted up to a number that no job uses up, and one without a line would be taken for one that was not written.
fn print(
    to: Stdout,
    first: Listing,
    a: &[f64; CELLS],
    ws: &mut [f64; WORKSPACE],
    q: &mut [f64; QUESTION],
) -> Result<(), Failure> {
    let mut out = [0u8; PAGE];
    let mut l = first;
    for _ in 0..u64::MAX {
        if matches!(l.said, Said::Over) {
            return Ok(());
        }
        let page = listing::next_page(l, a, ws, q, &mut out);
        let text = &out[..page.length];
        if text.is_empty() || to.write_all(text).is_err() {
            break;
        }
        l = page.listing;
    }
    Err(Failure::NotWritten)
}
