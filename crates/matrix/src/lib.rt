// Dense linear algebra for small square matrices, stored by rows: LU decomposition with partial pivoting (`lu`), and
// solving with the factors (`linear`). Beside matrix/lu.rs and matrix/linear.rs of the Rust.
#![tactic(auto)]

mod cell;
pub mod linear;
pub mod lu;

pub use cell::MAX_N;
pub use linear::{SolveError, lin_solve};
pub use lu::{LuError, lu_decomp};
