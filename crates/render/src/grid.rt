// The place on the grid, a step notice as the renderer takes it, and what is answered.
ghost use Rattle.std.specs.Prelude.{◌≡◌};
ghost use Rattle.render.specs.Times.{within};
ghost use Rattle.render.specs.Sampled.{fresh_grid, follows, due_from, proper};

use crate::times::first_from;

// A step notice: its true start, its new x and its signed step.
#[derive(Clone, Copy, PartialEq)]
pub struct Notice {
    pub start: f64,
    pub new: f64,
    pub h: f64,
}

impl Notice {
    // Whether the step goes forward, between two x in range.
    pub(crate) fn is_proper(self) -> bool
        ensures { result ≡ proper self }
    {
        0.0 < self.h && is_within(self.start) && is_within(self.new)
    }
}

// Between these the grid's numbers stay below 2^32.
const EARLIEST: f64 = -80000.0;

const LATEST: f64 = 80000.0;

fn is_within(x: f64) -> bool
    ensures { result ≡ within x }
{
    EARLIEST <= x && x <= LATEST
}

// The place on the grid: the last notice and the next k to write. Before the first notice it is fresh, whatever these are. It is open while
// some k of that notice is due, and closed once none is.
#[derive(Clone, Copy)]
pub enum Grid {
    Fresh { last: Notice, next: u64 },
    Open { last: Notice, next: u64 },
    Closed { last: Notice, next: u64 },
}

impl Grid {
    // Before the first notice.
    pub fn new() -> Grid
        ensures { result ≡ fresh_grid }
    {
        let last = Notice {
            start: 0.0,
            new: 0.0,
            h: 0.0,
        };
        Grid::Fresh { last, next: 0 }
    }

    // Whether a notice is in turn: it repeats the one that is open, or starts where the one that is closed ended.
    pub(crate) fn is_followed_by(self, notice: Notice) -> bool
        ensures { result ≡ follows self notice }
    {
        match self {
            Grid::Fresh { .. } => true,
            Grid::Open { last, next: _ } => notice == last,
            Grid::Closed { last, next: _ } => notice.start == last.new,
        }
    }

    // The first k that a call may write.
    pub(crate) fn due_from(self, notice: Notice) -> u64
        ensures { result ≡ due_from self notice }
    {
        match self {
            Grid::Fresh { .. } => first_from(notice.start),
            Grid::Open { last: _, next } | Grid::Closed { last: _, next } => next,
        }
    }
}

// What a call wrote: so many samples, the first of them for the k `from`. It is `done` where no k of the notice is left.
#[derive(Clone, Copy)]
pub struct Sampled {
    pub from: u64,
    pub count: usize,
    pub done: bool,
}

// Why a call did nothing, in the order of checking: refusals 1, 13, 18 and 19.
#[derive(Clone, Copy, PartialEq, Eq)]
pub enum RenderError {
    // More components than there may be.
    TooMany,
    // The coefficients are not those of n components.
    WrongLength,
    // The notice neither repeats the unfinished one nor starts where the last ended.
    OutOfTurn,
    // The step does not go forward, or an x is too far from 0.
    OutOfRange,
}
