// The reply to what a run asked, after calls that must be refused: a reply that does not suit, a workspace that is short, a
// state that is damaged. None of them may change anything, and what the first two hand back goes on. Were anything
// changed, the lines that follow would differ from the recorded ones.
use crate::run::Room;
use crate::solver;
use crate::solver::{Reply, Run, Turn};

pub(crate) fn go_on(run: Run, reply: Reply, values: &[f64], room: &mut Room) -> Turn {
    let Room { ws, q } = room;
    let unsuited = solver::go_on(run, other(reply), values, ws, q).run;
    // No run has room in one number.
    let short = solver::go_on(unsuited, reply, values, &mut [0.0], q).run;
    let _ = solver::go_on(damaged(short), reply, values, ws, q);
    solver::go_on(short, reply, values, ws, q)
}

fn other(reply: Reply) -> Reply {
    match reply {
        Reply::Values => Reply::Continue,
        _ => Reply::Values,
    }
}

fn damaged(mut run: Run) -> Run {
    run.at.order = 0;
    run
}
