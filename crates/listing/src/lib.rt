// A job's listing: every line that the job program prints for a file, given page by page.
#![tactic(auto)]

mod answer;
mod opening;
mod pages;
mod replies;

pub use opening::{Listing, QUESTION, Said, WORKSPACE, open};
pub use pages::{Page, next_page};
