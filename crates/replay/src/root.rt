// Kinds 1 and 2: the square root of x, and the inverse k-th root of x.
use crate::fields;
use crate::numbered::Numbered;
use crate::state::Replay;

pub(crate) fn square_root(replay: &mut Replay) -> Option<()> {
    let root = roots::sqrt(replay.words.double()?);
    fields::numbers_line(&mut replay.page, &[root]);
    Some(())
}

pub(crate) fn inverse_root(replay: &mut Replay) -> Option<()> {
    let k = replay.words.number()?;
    let x = replay.words.double()?;
    match roots::inverse_root(k, x) {
        Ok(root) => fields::numbers_line(&mut replay.page, &[root]),
        Err(why) => lines::refusal_line(&mut replay.page, why.number()),
    }
    Some(())
}
