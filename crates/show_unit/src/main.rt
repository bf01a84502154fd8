// Prints the unit coefficients that the solver reads, for the page docs/UNIT-COEFFICIENTS.md to be held against: for each order a line
// for each row, `U`, the order, the row's number i, and the row's entries as their bits, j from 0 up to the order.
#![tactic(auto)]

ghost use Rattle.std.specs.Prelude.{◌≤◌};

use std::fmt::Write;
use text::Page;
use unit::unit_r;

// Room for all twenty rows: fewer than 2,000 bytes.
const PAGE: usize = 4096;

fn main(rt: HostRuntime) {
    let mut out = [0u8; PAGE];
    let mut page = Page::new(&mut out);
    let u = unit_r();
    for order in 1..=5 {
        put_table(&mut page, &u, order);
    }
    output::flush(&mut rt.stdout(), &mut page);
    if page.is_full() {
        let _ = rt.eprintln("show_unit: standard output was not written");
    }
}

// The rows of an order.
fn put_table(page: &mut Page, u: &[f64; 36], order: usize)
    requires { order ≤ 5 }
{
    for i in 0..=order {
        let first = 6 * i;
        put_row(page, order, i, &u[first..=first + order]);
    }
}

// A row's entries, each after a space.
fn put_row(page: &mut Page, order: usize, i: usize, entries: &[f64]) {
    // A page without room for it is full, and says so when it is written out.
    let _ = write!(page, "U {order} {i}");
    for &x in entries {
        page.put_byte(b' ');
        page.put_double(x);
    }
    page.put_byte(b'\n');
}
