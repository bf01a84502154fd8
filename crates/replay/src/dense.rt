// Kind 5: interpolation within a step.
use crate::fields;
use crate::numbered::Numbered;
use crate::state::Replay;
use interpolation::interpolate;

const MOST: usize = 64;

// Behind their number stand where a value is wanted, the beginning and the length of the step that it lies in, the components, and
// their coefficients.
pub(crate) fn interpolation(replay: &mut Replay) -> Option<()> {
    let mut yi = [0.0f64; MOST];
    let mut cont = [0.0f64; 7 * MOST];
    let n = replay.words.count(MOST)?;
    let yi = &mut yi[..n];
    let cont = &mut cont[..7 * n];
    let xi = replay.words.double()?;
    let xold = replay.words.double()?;
    let h = replay.words.double()?;
    replay.words.doubles(yi)?;
    replay.words.doubles(cont)?;
    match interpolate(xi, yi, cont, xold, h) {
        Ok(()) => fields::numbers_line(&mut replay.page, yi),
        Err(why) => lines::refusal_line(&mut replay.page, why.number()),
    }
    Some(())
}
