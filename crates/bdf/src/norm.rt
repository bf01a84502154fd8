// The weighted root mean square of the right side over the scale: `weighted_rms_scaled(&rhs, &scale)`.
ghost use Rattle.std.specs.Prelude.{◌≡◌, ◌<◌, ◌≤◌};
ghost use Rattle.rules.specs.laws.Ready.{Room};
ghost use Rattle.rules.specs.Norm.{square_of, sum_of_squares, rhs_norm};

use crate::places::{RHS, SCALE, get};
use crate::predict::EPSILON;

fn square(v: f64, s: f64) -> f64
    ensures { result ≡ square_of v s }
{
    let denom = if s == 0.0 { EPSILON } else { s };
    let ratio = v / denom;
    ratio * ratio
}

fn sum_of_squares(ws: &[f64], n: usize) -> f64
    requires { Room n ws.now }
    ensures { result ≡ sum_of_squares n ws.now }
{
    (0..n).fold(
        0.0,
        |sum, i| sum + square(get(ws, n, RHS, i), get(ws, n, SCALE, i)),
    )
}

pub(crate) fn rhs_norm(ws: &[f64], n: usize) -> f64
    requires { Room n ws.now }
    ensures { result ≡ rhs_norm n ws.now }
{
    roots::sqrt(sum_of_squares(ws, n) / n as f64)
}
