// A run from a reply to its next answer: what the reply came to, and attempts until one says something.
ghost use Rattle.std.specs.Prelude.{◌≡◌, ◌≤◌, length};
ghost use Rattle.rules.specs.laws.Ready.{Ready, Awake, Answered};
ghost use Rattle.rules.specs.State.{after};
ghost use Rattle.rules.specs.Reply.{replied as replied_of};
ghost use Rattle.bdf.specs.Said.{turn_of};

use crate::attempt::attempt;
use crate::reply::replied;
use crate::said::Said;
use rules::types::{Awaited, Progress, Reply};

pub(crate) fn run(
    ws: &mut [f64],
    q: &mut [f64],
    w: Awaited,
    p: &mut Progress,
    reply: Reply,
    values: &[f64],
) -> Said
    requires { Ready p.old ws.old q.old × Awake p.old × Answered w p.old reply values.now }
    ensures { after (turn_of result p.new) ws.new q.new ≡ replied_of w p.old reply values.now ws.old q.old }
{
    let mut came = replied(ws, q, w, p, reply, values);
    loop {
        match came {
            Some(said) => return said,
            None => came = attempt(ws, q, p),
        }
    }
}
