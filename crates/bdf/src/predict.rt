// The predictor, the scale and psi of an attempt.
ghost use Rattle.std.specs.Prelude.{◌≡◌, ◌<◌, ◌≤◌};
ghost use Rattle.rules.specs.laws.Ready.{Room};
ghost use Rattle.rules.specs.Predict.{predicted as predicted_of, predict as predict_of, scale_of, scale_at, scaled, psi_sum, psied};

use crate::places::{ATOL, PSI, RTOL, SCALE, Y_PREDICT, get, set_row};
use crate::tables::{alpha, gamma};

pub(crate) const EPSILON: f64 = 2.220446049250313e-16;

// The sum of D[0] to D[order] at component i.
fn predicted(ws: &[f64], n: usize, order: usize, i: usize) -> f64
    requires { Room n ws.now × (order ≤ 5) × (i < n) }
    ensures { result ≡ predicted_of n ws.now order i }
{
    (0..order + 1).fold(0.0, |sum, k| sum + get(ws, n, k, i))
}

pub(crate) fn predict(ws: &mut [f64], n: usize, order: usize)
    requires { Room n ws.old × (order ≤ 5) }
    ensures { ws.new ≡ predict_of n order ws.old }
{
    set_row(ws, n, Y_PREDICT, |ws, i| predicted(ws, n, order, i));
}

// What an error is measured by: the absolute tolerance, and the relative one times the magnitude.
fn scale_of(atol: f64, rtol: f64, v: f64) -> f64
    ensures { result ≡ scale_of atol rtol v }
{
    let s = atol + rtol * number::abs(v);
    if s == 0.0 { EPSILON } else { s }
}

fn scale_at(ws: &[f64], n: usize, v: usize, i: usize) -> f64
    requires { Room n ws.now × (v < 33) × (i < n) }
    ensures { result ≡ scale_at n ws.now v i }
{
    scale_of(get(ws, n, ATOL, i), get(ws, n, RTOL, i), get(ws, n, v, i))
}

// The scale of the state at row v.
pub(crate) fn rescale(ws: &mut [f64], n: usize, v: usize)
    requires { Room n ws.old × (v < 33) }
    ensures { ws.new ≡ scaled n v ws.old }
{
    set_row(ws, n, SCALE, |ws, i| scale_at(ws, n, v, i));
}

fn psi_sum(ws: &[f64], n: usize, order: usize, i: usize) -> f64
    requires { Room n ws.now × (order ≤ 5) × (i < n) }
    ensures { result ≡ psi_sum n ws.now order i }
{
    (1..order + 1).fold(0.0, |s, j| s + gamma(j) * get(ws, n, j, i))
}

pub(crate) fn psi(ws: &mut [f64], n: usize, order: usize)
    requires { Room n ws.old × (order ≤ 5) }
    ensures { ws.new ≡ psied n order ws.old }
{
    let a = alpha(order);
    set_row(ws, n, PSI, |ws, i| psi_sum(ws, n, order, i) / a);
}
