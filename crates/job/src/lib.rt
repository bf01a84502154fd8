// A job file: y' = A y with its beginning, packed. Reading one, writing one, and its right side.
#![tactic(auto)]

mod form;
mod packed;
mod reader;
mod right;
mod writer;

pub use form::{Form, ReadError, read_form};
pub use packed::{CELLS, LONGEST};
pub use reader::{Job, read, settings};
pub use right::{WrongLength, right_side};
pub use writer::{WriteError, write};
