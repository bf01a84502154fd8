// Kinds 3 and 4: an LU decomposition, and a solution with its factors. n is at most 33: one more than either takes, so that
// a case can ask for the refusal.
ghost use Rattle.std.specs.Prelude.{◌≤◌};

use crate::fields;
use crate::numbered::Numbered;
use crate::state::Replay;

const MOST: usize = 33;

const CELLS: usize = MOST * MOST;

pub(crate) fn decomposition(replay: &mut Replay) -> Option<()> {
    let mut a = [0.0f64; CELLS];
    let mut ip = [0usize; MOST];
    let n = replay.words.count(MOST)?;
    let a = &mut a[..square(n)];
    let ip = &mut ip[..n];
    replay.words.numbers(ip)?;
    replay.words.doubles(a)?;
    let page = &mut replay.page;
    match matrix::lu_decomp(a, ip) {
        Ok(()) => page.put_bytes(b"ok"),
        Err(why) => fields::refusal(page, why),
    }
    // However it went: the pivots and the matrix as they stand.
    fields::put(page, ip);
    fields::put(page, a);
    page.put_byte(b'\n');
    Some(())
}

pub(crate) fn solution(replay: &mut Replay) -> Option<()> {
    let mut a = [0.0f64; CELLS];
    let mut ip = [0usize; MOST];
    let mut b = [0.0f64; MOST];
    let n = replay.words.count(MOST)?;
    let a = &mut a[..square(n)];
    let ip = &mut ip[..n];
    let b = &mut b[..n];
    replay.words.numbers(ip)?;
    replay.words.doubles(a)?;
    replay.words.doubles(b)?;
    match matrix::lin_solve(a, b, ip) {
        Ok(()) => fields::numbers_line(&mut replay.page, b),
        Err(why) => lines::refusal_line(&mut replay.page, why.number()),
    }
    Some(())
}

fn square(n: usize) -> usize
    requires { n ≤ 33 }
    ensures { result ≤ 1089 }
{
    n * n
}
