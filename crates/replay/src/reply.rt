// The reply that an answer calls for: values to a question, a word to a notice.
ghost use Rattle.std.specs.Prelude.{◌≤◌, length};

use crate::components::Components;
use crate::solver::{Answer, Reply};
use crate::words::Words;

// Room for the longest reply, a Jacobian.
pub(crate) const VALUES: usize = 1024;

// A reply, and its values beside it.
pub(crate) struct Replied<'a> {
    pub reply: Reply,
    pub values: &'a [f64],
    ghost few: { length values.now ≤ 1024 },
}

pub(crate) fn read<'a>(
    words: &mut Words,
    answer: Answer,
    n: Components,
    to: &'a mut [f64; VALUES],
) -> Option<Replied<'a>> {
    match answer {
        Answer::Derivative(_) => valued(words, Reply::Values, &mut to[..n.state()]),
        Answer::Jacobian(_) => valued(words, Reply::Values, &mut to[..n.cells()]),
        _ => notice(words, n, to),
    }
}

// Continue, interrupt, or modified with the new x and state.
fn notice<'a>(words: &mut Words, n: Components, to: &'a mut [f64; VALUES]) -> Option<Replied<'a>> {
    match words.word()? {
        0 => valued(words, Reply::Continue, &mut to[..0]),
        1 => valued(words, Reply::Interrupt, &mut to[..0]),
        2 => {
            let x = words.double()?;
            valued(words, Reply::Modified(x), &mut to[..n.state()])
        }
        _ => None,
    }
}

fn valued<'a>(words: &mut Words, reply: Reply, values: &'a mut [f64]) -> Option<Replied<'a>>
    requires { length values.old ≤ 1024 }
{
    words.doubles(values)?;
    Some(Replied { reply, values })
}
