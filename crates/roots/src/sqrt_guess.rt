// A guess at a square root by float operations. Nothing is promised of it but that it is no longer than a significand:
// whoever uses it tests it. It is the root in seven cases of eight, and one of its neighbours in nearly all others.
ghost use Rattle.std.specs.Prelude.{◌^◌, ◌<◌};

use crate::bits::{HIDDEN, ONE_BITS};

// The significand of a number near the root of r in [1, 4), whose pattern lies w above that of 1.
// A polynomial gives p near half of 1 / sqrt(f), f being r or r / 2 in [1, 2), to 16 bits; one step of Newton's method on the
// reciprocal root gives `root` and `half`, near sqrt(r) and half of 1 / sqrt(r), to 32, and a last step the root. Where r is
// 2 f, c turns 1 / sqrt(f) into 1 / sqrt(r); k is 2 c r / f.
pub(crate) fn guess(w: u64) -> u64
    requires { w < 2 ^ 53 }
    ensures { result < 2 ^ 53 }
{
    let r = f64::from_bits(ONE_BITS + w);
    let f = f64::from_bits(ONE_BITS + w % HIDDEN);
    let c = if w < HIDDEN { 1.0 } else { 0.7071067811865476 };
    let k = if w < HIDDEN { 2.0 } else { 2.8284271247461903 };
    let f2 = f * f;
    let low = 1.1393935777569006 - 1.3334565616240017 * f;
    let middle = 1.1100930843556975 - 0.5435628219220783 * f;
    let high = 0.1432288555932989 - 0.01570195728199212 * f;
    let p = low + f2 * middle + f2 * f2 * high;
    let g = k * f * p;
    let h = c * p;
    let e = 1.5 - g * h;
    let root = g * e;
    let half = h * e;
    significand(root + (r - root * root) * half)
}

// The last 53 bits of the pattern of s: its significand, where s lies in [1, 2).
fn significand(s: f64) -> u64
    ensures { result < 2 ^ 53 }
{
    if s.is_nan() {
        return HIDDEN;
    }
    f64::to_bits(s) % (2 * HIDDEN)
}
