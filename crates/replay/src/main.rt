// Replays recorded cases: 64-bit words on standard input, each most significant byte first, and a line of text for each
// answer on standard output. A stream that is no row of cases ends in the line `X`. When all words that came are used up, what it has
// said is written out before it waits: so the words can come from a process that reads each answer before it replies.
#![tactic(auto)]

mod answer;
mod components;
mod config;
mod dense;
mod fields;
mod kind;
mod linear;
mod numbered;
mod refused;
mod reply;
mod root;
mod run;
mod solver;
mod state;
mod words;

use kind::Kind;
use state::Replay;

// The bytes of either buffer: many, so that few calls move a long stream.
const BUFFER: usize = 65536;

fn main(rt: HostRuntime) {
    let mut inp = [0u8; BUFFER];
    let mut out = [0u8; BUFFER];
    let mut replay = Replay::new(rt.stdin(), rt.stdout(), &mut inp, &mut out);
    if cases(&mut replay).is_none() {
        replay.make_room();
        replay.page.put_bytes(b"X\n");
    }
    replay.flush();
}

// Until the words end, or a write fails. None where the words are no row of cases. A proved loop has to end, and nothing says that a
// stream does: so it has a number of turns that no stream uses up.
fn cases(replay: &mut Replay) -> Option<()> {
    replay.words.read_on();
    for _ in 0..u64::MAX {
        if !replay.goes_on() {
            break;
        }
        case(replay)?;
        replay.flush_before_waiting();
        replay.words.read_on();
    }
    Some(())
}

// One case: its kind, and then what the kind calls for. A leaf writes one line, for which room is made here.
fn case(replay: &mut Replay) -> Option<()> {
    replay.make_room();
    match Kind::try_from(replay.words.word()?).ok()? {
        Kind::Run => run::run(replay),
        Kind::SquareRoot => root::square_root(replay),
        Kind::InverseRoot => root::inverse_root(replay),
        Kind::Decomposition => linear::decomposition(replay),
        Kind::Solution => linear::solution(replay),
        Kind::Interpolation => dense::interpolation(replay),
    }
}
