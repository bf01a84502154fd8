// Runs the edges that no transcript tells: how long the lent slices must be, and which states handed back are damaged.
// Lines of text on standard output; there is no input.
#![tactic(auto)]

mod case;
mod drive;
mod forge;
mod lengths;
mod said;
mod size;
mod tally;

use case::CASES;
use std::fmt;
use tally::Tally;
use text::Page;

fn edges(page: &mut Page) -> fmt::Result {
    lengths::all(page)?;
    let mut tally = Tally::new();
    for case in CASES {
        drive::run(page, &mut tally, case)?;
    }
    tally.show_places(page)?;
    tally.show_forgeries(page)
}

// The bytes of the page: it has room for all that is said.
const PAGE: usize = 65536;

fn main(rt: HostRuntime) {
    let mut bytes = [0u8; PAGE];
    let mut page = Page::new(&mut bytes);
    let _ = edges(&mut page);
    output::flush(&mut rt.stdout(), &mut page);
}
