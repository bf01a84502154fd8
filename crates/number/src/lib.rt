// The solver's number helpers: abs, signum, min and max of a double.
#![tactic(auto)]

mod helpers;

pub use helpers::{abs, max, min, signum};
