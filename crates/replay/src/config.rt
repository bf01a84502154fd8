// What a run is begun with, as its words give it: the settings, the two ends, and the tolerances.
ghost use Rattle.std.specs.Prelude.{◌≤◌, length};

use crate::run::Room;
use crate::solver;
use crate::solver::{BDF, Tolerance, Turn};
use crate::words::Words;

pub(crate) const MOST: usize = 64;

const SCALAR: u64 = u64::MAX;

#[derive(Clone, Copy)]
pub(crate) struct Config<'a> {
    settings: BDF,
    x0: f64,
    xend: f64,
    rtol: Allowed<'a>,
    atol: Allowed<'a>,
}

// A tolerance, and its entries beside it.
#[derive(Clone, Copy)]
struct Allowed<'a> {
    tolerance: Tolerance,
    entries: &'a [f64],
    ghost few: { length entries.now ≤ 64 },
}

impl<'a> Config<'a> {
    // The nine words in front are max_steps, newton_maxiter, the flags, x0, xend, and then what each of the first four flags is for.
    pub(crate) fn read(
        words: &mut Words,
        rtols: &'a mut [f64; MOST],
        atols: &'a mut [f64; MOST],
    ) -> Option<Config<'a>> {
        let max_steps = words.number()?;
        let newton_maxiter = words.number()?;
        let flags = words.word()?;
        let x0 = words.double()?;
        let xend = words.double()?;
        let settings = BDF {
            max_steps,
            max_step: given(flags, words.double()?),
            min_step: given(flags / 2, words.double()?),
            newton_maxiter,
            newton_tol: given(flags / 4, words.double()?),
            first_step: given(flags / 8, words.double()?),
            guarded: is_set(flags / 16),
        };
        Some(Config {
            settings,
            x0,
            xend,
            rtol: tolerance(words, rtols)?,
            atol: tolerance(words, atols)?,
        })
    }

    // The run's first answer.
    pub(crate) fn begin(self, y: &[f64], room: &mut Room) -> Turn {
        let rtol = self.rtol;
        let atol = self.atol;
        solver::begin(
            self.settings,
            self.x0,
            y,
            self.xend,
            rtol.tolerance,
            rtol.entries,
            atol.tolerance,
            atol.entries,
            &mut room.ws,
            &mut room.q,
        )
    }
}

// Given where the last bit of the flags is set.
fn given(flags: u64, x: f64) -> Option<f64> {
    is_set(flags).then_some(x)
}

fn is_set(flags: u64) -> bool {
    flags % 2 == 1
}

// A word of all ones and one number, or a count and that many.
fn tolerance<'a>(words: &mut Words, to: &'a mut [f64; MOST]) -> Option<Allowed<'a>> {
    let first = words.word()?;
    if first == SCALAR {
        return scalar(words);
    }
    let entries = to.get_mut(..first as usize)?;
    words.doubles(entries)?;
    Some(Allowed {
        tolerance: Tolerance::Vector,
        entries,
    })
}

fn scalar<'a>(words: &mut Words) -> Option<Allowed<'a>> {
    Some(Allowed {
        tolerance: Tolerance::Scalar(words.double()?),
        entries: &[],
    })
}
