// The rules of a run: its types, and in specs/ what every function of the solver computes; the theorems over whole runs
// are in proofs/promises/.
// The few functions here make the default settings and new counters, and ask a status what it means; the code that follows the
// rules is the crate `bdf`.
#![tactic(auto)]

pub mod settings;
pub mod stages;
pub mod types;
