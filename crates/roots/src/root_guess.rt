// A guess at an inverse k-th root by float operations. Nothing is promised of it but that it is safe: whoever uses it tests it.
ghost use Rattle.std.specs.Prelude.{◌*◌, ◌^◌, ◌≤◌, ◌<◌};
ghost use Rattle.roots.specs.Scaled.{Asked};

use crate::bits::{HIDDEN, INFINITY_BITS, ONE_BITS, places};
use crate::root_curve::{curve_of, inverse_of, shift};
use crate::units::Units;

// r^k.
// Stays a match: a loop over k would make each product wait for the one before, where here at most three do.
fn power(r: f64, k: usize) -> f64 {
    let r2 = r * r;
    let r4 = r2 * r2;
    match k {
        1 => r,
        2 => r2,
        3 => r2 * r,
        4 => r4,
        5 => r4 * r,
        6 => r4 * r2,
        _ => r4 * (r2 * r),
    }
}

// The inverse k-th root of y = m * 2^s, m from 1 to 2 and s below k: a value of the curve, then two steps of Newton's method, the first
// with the next term of the series. Half a place is added, since the quick test looks at the guess and at the pattern below it.
fn near_root(k: usize, m: f64, s: usize, y: f64) -> f64
    requires { (1 ≤ k) × (k ≤ 7) × (s < k) }
{
    let c = curve_of(k);
    let inverse = inverse_of(k);
    let p = ((c.0 * m + c.1) * (m * m) + (c.2 * m + c.3)) * shift(k, s);
    let d = 1.0 - y * power(p, k);
    let r = p + p * ((d * inverse) * (1.0 + d * (0.5 * (1.0 + inverse))));
    let e = 1.0 - y * power(r, k);
    r + (r * (e * inverse) + 5.551115123125783e-17)
}

// The pattern of r * 2^(places - 2100), or the nearest finite one.
fn pattern(r: f64, places: u64) -> u64
    requires { places < 2 ^ 32 }
{
    if r.is_nan() {
        return 0;
    }
    let b = f64::to_bits(r);
    let field = b / HIDDEN + places;
    let digits = b % HIDDEN;
    match field {
        0..=2048 => 0,
        2049..=2100 => (HIDDEN + digits) >> (2101 - field),
        2101..=4146 => (field - 2100) * HIDDEN + digits,
        _ => INFINITY_BITS - 1,
    }
}

// The digits as a number from 1 to 2.
fn fraction(digits: u64, zeros: u64) -> f64
    requires { zeros ≤ 52 }
{
    f64::from_bits(ONE_BITS + (digits << zeros) % HIDDEN)
}

// 2^s.
fn two_to(s: u64) -> f64
    requires { s ≤ 7 }
{
    f64::from_bits(ONE_BITS + s * HIDDEN)
}

// An exponent as a multiple of k and what it is less: 1074 - height = k * (places - 2100) - rest. The 2100 keep places above 0.
#[derive(Clone, Copy)]
struct Exponent {
    places: u64,
    rest: u64,
}

fn split(k: u64, height: u64) -> Exponent
    requires { (1 ≤ k) × (k ≤ 7) × (height ≤ 2100) }
    ensures { (result.rest < k) × (result.places < 2 ^ 32) }
{
    let depth = 1074 + k * 2100 - height;
    let places = depth.div_ceil(k);
    let rest = k * places - depth;
    Exponent { places, rest }
}

// A pattern near the inverse k-th root of x = m * 2^(height - 1074), m from 1 to 2: the root of m * 2^rest, and a power of two.
pub(crate) fn guess(k: usize, x: Units) -> u64
    requires { Asked k x.digits x.places }
{
    let zeros = places(x.digits);
    let e = split(k as u64, x.places + 52 - zeros);
    let m = fraction(x.digits, zeros);
    let y = m * two_to(e.rest);
    pattern(near_root(k, m, e.rest as usize, y), e.places)
}
