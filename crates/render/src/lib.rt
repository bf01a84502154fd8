// The renderer: the components of a forward run at the times k / 48000, from its step notices.
#![tactic(auto)]

mod grid;
mod rows;
mod sampling;
mod times;

pub use grid::{Grid, Notice, RenderError, Sampled};
pub use sampling::sample;
