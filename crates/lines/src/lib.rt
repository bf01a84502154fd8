// The lines that a job's run prints, and the numbers that stand in them.
#![tactic(auto)]

mod fields;
mod lines;
mod numbers;

pub use lines::{end_line, refusal_line, start_line, step_line};
pub use numbers::number_of;
