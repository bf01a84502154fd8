// The square root of a double, to the nearest, as IEEE 754 has it.
ghost use Rattle.std.specs.Prelude.{◌≡◌, ◌*◌, ◌%◌, ◌^◌, ◌≤◌, ◌<◌};
ghost use Rattle.std.specs.Float.{nan, binary64};
ghost use Rattle.std.specs.Float.Ieee.{of_bits};
ghost use Rattle.roots.specs.Roots.{infinity_bits, sqrt_of};
ghost use Rattle.roots.specs.WholeRoot.{scaled_root};

use crate::bits::{HIDDEN, INFINITY_BITS, places};
use crate::sqrt_guess::guess;
use crate::whole_root::whole_root;

// the pattern of -0
const SIGN: u64 = 0x8000_0000_0000_0000;

// Each way out is a case of `sqrt_of`: no number, from 0 to the normal ones, the normal ones, infinity, -0, and what is below 0.

pub fn sqrt(x: f64) -> f64
    ensures { result ≡ sqrt_of x }
{
    if x.is_nan() {
        return x;
    }
    match f64::to_bits(x) {
        b if b < HIDDEN => small(x, b),
        b if b < INFINITY_BITS => normal(b),
        INFINITY_BITS => x,
        SIGN => x,
        _ => f64::NAN,
    }
}

// The root of the normal number with the pattern b. Of its exponent the guess gets the parity: with 1's, an odd one, w is below 2^52.
fn normal(b: u64) -> f64
    requires { (2 ^ 52 ≤ b) × (b < infinity_bits) }
    ensures { result ≡ sqrt_of (of_bits binary64 b) }
{
    let m = guess((b + HIDDEN) % (2 * HIDDEN));
    scaled_root(HIDDEN + b % HIDDEN, b / HIDDEN + 1073, m)
}

// The root of 0, and of a number below the normal ones: its digits are moved up until the first stands at bit 52.
fn small(x: f64, b: u64) -> f64
    requires { (b < 2 ^ 52) × (x ≡ of_bits binary64 b) }
    ensures { result ≡ sqrt_of x }
{
    if b == 0 {
        return x;
    }
    let j = places(b);
    let a = b << j;
    let m = guess(a - HIDDEN + j % 2 * HIDDEN);
    scaled_root(a, 1074 - j, m)
}

// The double nearest to the root of a * 2^(e - 2148), m being a guess at its significand.
fn scaled_root(a: u64, e: u64, m: u64) -> f64
    requires { (2 ^ 52 ≤ a) × (a < 2 ^ 53) × (52 ≤ e) × (e < 4096) × (m < 2 ^ 53) }
    ensures { result ≡ scaled_root a e }
{
    let r = whole_root(even(a, e), m);
    f64::from_bits((e - 52) / 2 * HIDDEN + r)
}

// The significand that leaves an even exponent.
fn even(a: u64, e: u64) -> u64
    requires { a < 2 ^ 53 }
    ensures { result ≡ a * 2 ^ (e % 2) }
{
    if e % 2 == 0 { a } else { 2 * a }
}
