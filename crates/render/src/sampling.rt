// The renderer's one call: the checks, and past them the samples that are due, with the place moved on behind them.
ghost use Rattle.std.specs.Prelude.{◌≡◌, true, ◌*◌, ◌≤◌, length};
ghost use Rattle.loops.specs.Refusal.{gives};
ghost use Rattle.matrix.specs.Size.{max_n};
ghost use Rattle.render.specs.Sampled.{room_for, renders, said_of, written, sampled, proper, due};

use crate::grid::{Grid, Notice, RenderError, Sampled};
use crate::rows::write_rows;
use crate::times::first_past;
use matrix::MAX_N;

// Writes the samples of a notice that are due, as many as `out` has room for, n numbers each, from its beginning. A notice that is not
// done is handed over again, with another slice. On a refusal nothing lent changes.
#[tactic(auto, using(loops::specs::laws::ChoiceLaws::when_true, loops::specs::laws::ChoiceLaws::when_false), unfolding(crate::specs::Sampled::sampled))]
pub fn sample(
    grid: &mut Grid,
    notice: Notice,
    n: usize,
    cont: &[f64],
    out: &mut [f64],
) -> Result<Sampled, RenderError>
    ensures { renders (said_of result) grid.new out.new ≡ sampled grid.old notice n cont.now out.old }
{
    if n > MAX_N {
        return Err(RenderError::TooMany);
    }
    if cont.len() != 7 * n {
        return Err(RenderError::WrongLength);
    }
    if !grid.is_followed_by(notice) {
        return Err(RenderError::OutOfTurn);
    }
    if !notice.is_proper() {
        return Err(RenderError::OutOfRange);
    }
    Ok(write(grid, notice, n, cont, out))
}

// Past the checks: the samples that have room are written, and the place moves on behind them.
fn write(grid: &mut Grid, notice: Notice, n: usize, cont: &[f64], out: &mut [f64]) -> Sampled
    requires { (n ≤ max_n) × ((length cont.now ≡ 7 * n) × (proper notice ≡ true)) }
    ensures { renders (gives result) grid.new out.new ≡ written grid.old notice n cont.now out.old }
{
    let from = grid.due_from(notice);
    let past = first_past(notice.new);
    let count = count_due(past, room_for(n, out.len()), from);
    write_rows(notice, n, cont, from, count, out);
    let next = from + count as u64;
    let done = next >= past;
    *grid = if done {
        Grid::Closed { last: notice, next }
    } else {
        Grid::Open { last: notice, next }
    };
    Sampled { from, count, done }
}

// How many samples of n numbers a slice has room for. Without components a sample has no numbers, and there is room for every k.
#[tactic(auto, using(loops::specs::laws::ChoiceLaws::when_true, loops::specs::laws::ChoiceLaws::when_false))]
fn room_for(n: usize, len: usize) -> usize
    ensures { result ≡ room_for n len }
{
    if n == 0 { 4294967296 } else { len / n }
}

// How many from k on are due before the k `past`, `room` at most.
#[tactic(auto, unfolding(crate::specs::Sampled::due))]
fn count_due(past: u64, room: usize, k: u64) -> usize
    ensures { result ≡ due past room k }
{
    room.min(past.saturating_sub(k) as usize)
}
