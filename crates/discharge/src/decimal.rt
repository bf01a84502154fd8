// A double as a decimal with six places, for people to read. Who wants every bit of it takes `Page::put_double`.
use std::fmt;
use std::num::truncating_f64_to_u64;

const MILLION: u64 = 1_000_000;

#[derive(Clone, Copy)]
pub struct Decimal(pub f64);

impl fmt::Display for Decimal {
    // Words are put in the place of digits where there are none.
    fn fmt<W: fmt::Write>(&self, f: &mut fmt::Formatter<W>) -> fmt::Result {
        if self.0 < 0.0 {
            f.write_str("-")?;
        }
        let Some(n) = millionths(self.0.abs()) else {
            return f.write_str("(no decimal)");
        };
        let whole = n / MILLION;
        let places = n % MILLION;
        write!(f, "{whole}.{places:06}")
    }
}

// x rounded to millionths, as doubles multiply and add: next to a tie the last place may be the one beside it. The tests are what the cast
// asks for: a NaN, an infinity and what is too large for a u64 do not pass both.
fn millionths(x: f64) -> Option<u64> {
    let n = x * 1e6 + 0.5;
    if n > -1.0 && n < 18446744073709551616.0 {
        return Some(truncating_f64_to_u64(n));
    }
    None
}
