// The solver, under the names that kind 0 has for its parts.
pub use bdf::settings::BDF;
pub use bdf::types::{Answer, Kind, Refusal, Reply, Run, Tolerance, Turn};
pub use bdf::{begin, go_on};
