// Two capacitors discharge through resistors: prints the voltage of the second, half way and at the end. docs/USING.md goes through it.
// Where the end was not reached no value is printed but the word for it; the exit status does not say so.
#![tactic(auto)]

mod decimal;
mod run;

use decimal::Decimal;
use run::{Failure, Voltages};
use std::fmt::Write;
use text::Page;

// Room for both lines.
const PAGE: usize = 256;

fn main(rt: HostRuntime) {
    let mut out = [0u8; PAGE];
    let mut page = Page::new(&mut out);
    report(&mut page, run::discharge());
    output::flush(&mut rt.stdout(), &mut page);
    if page.is_full() {
        let _ = rt.eprintln("discharge: standard output was not written");
    }
}

fn report(page: &mut Page, outcome: Result<Voltages, Failure>) {
    match outcome {
        Ok(Voltages { middle, end }) => {
            line(page, "V2 at 0.5", middle);
            line(page, "V2 at 1.0", end);
        }
        Err(Failure::Unfinished) => page.put_bytes(b"UNFINISHED\n"),
        Err(Failure::Refused) => page.put_bytes(b"REFUSED\n"),
    }
}

// A value for people to read, and behind it the 16 digits of the double that it is, which nothing has rounded.
fn line(page: &mut Page, name: &str, x: f64) {
    // A page without room for it is full, and says so when it is written out.
    let _ = writeln!(page, "{name}: {} {:016X}", Decimal(x), text::bits(x));
}
