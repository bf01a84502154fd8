// The inverse k-th root of a double, k from 1 to 7, to the nearest.
ghost use Rattle.std.specs.Prelude.{◌≡◌, ◌≤◌};
ghost use Rattle.roots.specs.Roots.{inverse_root, inverse_root_of, root_said};
ghost use Rattle.roots.specs.Scaled.{Asked, nearest_root};

use crate::KOutside;
use crate::bits::INFINITY_BITS;
use crate::root_guess::guess;
use crate::root_quick::settle;
use crate::root_test::greatest_reaching;
use crate::units::{Units, units_of};

// x to the power -1/k, to the nearest double, and to +infinity from the middle above the largest on. +0 and -0 give +infinity,
// +infinity gives +0, a number below 0 and NaN give NaN. k outside 1 to 7 is refused.
pub fn inverse_root(k: usize, x: f64) -> Result<f64, KOutside>
    ensures { root_said result ≡ inverse_root_of k x }
{
    if k < 1 || 7 < k {
        return Err(KOutside);
    }
    Ok(inverse_root_of(k, x))
}

// The pattern of the inverse k-th root of x: a guess is settled by a quick test, or else searched from.
fn pattern_of_root(k: usize, x: Units) -> u64
    requires { Asked k x.digits x.places }
    ensures { result ≡ nearest_root k x.digits x.places }
{
    let b = guess(k, x);
    match settle(k, x, b) {
        Some(c) => c,
        None => greatest_reaching(k, x, b),
    }
}

fn inverse_root_of(k: usize, x: f64) -> f64
    requires { (1 ≤ k) × (k ≤ 7) }
    ensures { result ≡ inverse_root k x }
{
    if x.is_nan() {
        return x;
    }
    if x == 0.0 {
        return f64::INFINITY;
    }
    if x < 0.0 {
        return f64::NAN;
    }
    let b = f64::to_bits(x);
    if INFINITY_BITS <= b {
        return 0.0;
    }
    let units = units_of(b);
    f64::from_bits(pattern_of_root(k, units))
}
