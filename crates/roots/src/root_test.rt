// Whether the edge of a bit pattern, the middle between it and the one below, lies at or below the k-th root of 1 / x; and the greatest
// pattern whose edge does, which is the root to the nearest.
ghost use Rattle.std.specs.Prelude.{◌≡◌, ◌+◌, ◌^◌, ◌≤◌, ◌<◌};
ghost use Rattle.roots.specs.Roots.{infinity_bits};
ghost use Rattle.roots.specs.Scaled.{Asked, reaches_root, nearest_root};

use crate::bits::INFINITY_BITS;
use crate::power::at_most_power;
use crate::units::{Units, units_of};

// the first pattern of a NaN
const PAST_INFINITY: u64 = INFINITY_BITS + 1;

// Whether the k-th power of b's edge, times x, is at most 1. In half units the edge has the places of the pattern below, and one more than
// twice its digits.
fn reaches(k: usize, x: Units, b: u64) -> bool
    requires { Asked k x.digits x.places × (0 < b) × (b ≤ infinity_bits) }
    ensures { result ≡ reaches_root k x.digits x.places b }
{
    let r = units_of(b - 1);
    let power = k as u64;
    let limit = 1075 * power + 1074;
    let used = r.places * power + x.places;
    used <= limit && at_most_power(2 * r.digits + 1, k, x.digits, limit - used)
}

// A place to try between two others: the one proposed, or the middle where that is not between them.
fn between(lo: u64, hi: u64, proposed: u64) -> u64
    requires { (lo + 1 < hi) × (hi < 2 ^ 64) }
    ensures { (lo < result) × (result < hi) }
{
    if lo < proposed && proposed < hi {
        proposed
    } else {
        lo + (hi - lo) / 2
    }
}

// The greatest pattern that reaches, by a search from a guess on with strides that double. Any guess will do.
pub(crate) fn greatest_reaching(k: usize, x: Units, guess: u64) -> u64
    requires { Asked k x.digits x.places }
    ensures { result ≡ nearest_root k x.digits x.places }
{
    let mut lo = 0;
    let mut hi = PAST_INFINITY;
    let mut next = guess;
    let mut stride: u64 = 1;
    while lo + 1 < hi {
        let b = between(lo, hi, next);
        if reaches(k, x, b) {
            lo = b;
            next = b + stride;
        } else {
            hi = b;
            next = b.saturating_sub(stride);
        }
        stride = stride % 0x1_0000_0000 * 2;
    }
    lo
}
