// The BDF solver: variable order 1 to 5, fixed-leading-coefficient steps, simplified Newton, by questions and replies.
#![tactic(auto)]

mod aim;
mod attempt;
mod beginning;
mod checks;
mod factor;
mod going_on;
mod judge;
mod moves;
mod newton;
mod norm;
mod order;
mod places;
mod predict;
mod reply;
mod rescale;
mod run;
mod said;
mod starting;
mod step;
mod tables;
mod tolerance;

pub use beginning::begin;
pub use going_on::{go_on, resume};
pub use rules::{settings, types};
