// Lines of text and words of bytes: what a program writes and reads that prints doubles by their bits.
// Text goes onto a page, which is a lent slice and the place where its next text goes.
#![tactic(auto)]

mod notation;
mod page;
mod pattern;
mod word;

pub use page::{Page, places, stands};
pub use pattern::{bits, double};
pub use word::word_at;
