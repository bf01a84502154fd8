// Kind 0: a run, from its configuration and the replies to what it asks.
use crate::components::Components;
use crate::config::{Config, MOST};
use crate::reply::{Replied, VALUES};
use crate::solver::{Answer, Turn};
use crate::state::Replay;
use crate::{answer, refused, reply};

// What the solver wants of slices at the most components that it takes, 32.
const WORKSPACE: usize = 2 * 32 * 32 + 33 * 32;

pub(crate) const QUESTION: usize = 8 * 32;

// The slices that every call of a run is lent.
#[derive(Drop)]
pub(crate) struct Room {
    pub ws: [f64; WORKSPACE],
    pub q: [f64; QUESTION],
}

// Where the words break off nothing is said of what would be begun with them.
pub(crate) fn run(replay: &mut Replay) -> Option<()> {
    let mut y = [0.0f64; MOST];
    let mut rtols = [0.0f64; MOST];
    let mut atols = [0.0f64; MOST];
    let mut room = Room {
        ws: [0.0; WORKSPACE],
        q: [0.0; QUESTION],
    };
    let n = replay.words.count(MOST)?;
    let y = &mut y[..n];
    let config = Config::read(&mut replay.words, &mut rtols, &mut atols)?;
    replay.words.doubles(y)?;
    let first = config.begin(y, &mut room);
    turns(replay, first, Components::new(n), &mut room)
}

// A line for each thing that the run says, and the replies between them: one that breaks off leaves the rest unsaid. Every run ends, but what
// this program knows of the solver does not say so: so it has a number of turns that no run uses up.
fn turns(replay: &mut Replay, first: Turn, n: Components, room: &mut Room) -> Option<()> {
    let mut values = [0.0f64; VALUES];
    let mut turn = first;
    for _ in 0..u64::MAX {
        if !waits(&turn) || replay.page.is_full() {
            break;
        }
        say(replay, &turn, n, &room.q);
        replay.flush_before_waiting();
        let words = &mut replay.words;
        let Replied { reply, values } = reply::read(words, turn.answer, n, &mut values)?;
        turn = refused::go_on(turn.run, reply, values, room);
    }
    say(replay, &turn, n, &room.q);
    Some(())
}

// Whether the run waits for a reply.
fn waits(turn: &Turn) -> bool {
    !matches!(turn.answer, Answer::End { .. } | Answer::Refused(_))
}

// A line for what the run said.
fn say(replay: &mut Replay, turn: &Turn, n: Components, q: &[f64; QUESTION]) {
    replay.make_room();
    answer::line(&mut replay.page, turn, n, q);
}
