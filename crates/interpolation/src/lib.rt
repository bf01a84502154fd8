// The polynomial of an accepted step, which a caller evaluates between two notices.
#![tactic(auto)]

mod polynomial;

pub use polynomial::{InterpolationError, interpolate};
