// The error's norm, and the differences and coefficients of an accepted step.
ghost use Rattle.std.specs.Prelude.{◌≡◌, ◌+◌, ◌*◌, ◌<◌, ◌≤◌, slice_set};
ghost use Rattle.rules.specs.laws.Ready.{Room};
ghost use Rattle.rules.specs.Judge.{coefficient as place, safety_of, weighed, newest as newest_of, add_next, summed, coeff, coeffs, prepared, accepted_ws};

use crate::moves::copy;
use crate::places::{CONT, DELTA, RHS, Y, Y_NEW, get, put, row, set_row};

pub(crate) fn safety(m: usize, iters: usize) -> f64
    requires { (m ≤ 64) × (iters ≤ 64) }
    ensures { result ≡ safety_of m iters }
{
    0.9 * (2.0 * m as f64 + 1.0) / (2.0 * m as f64 + (iters + 1) as f64)
}

// rhs = k * v, of the vector at row v.
pub(crate) fn weigh(ws: &mut [f64], n: usize, k: f64, v: usize)
    requires { Room n ws.old × (v < 33) }
    ensures { ws.new ≡ weighed n k v ws.old }
{
    set_row(ws, n, RHS, |ws, i| k * get(ws, n, v, i));
}

fn newest(ws: &mut [f64], n: usize, order: usize)
    requires { Room n ws.old × (order ≤ 5) }
    ensures { ws.new ≡ newest_of n order ws.old }
{
    for i in 0..n {
        let x = get(ws, n, DELTA, i) - get(ws, n, order + 1, i);
        put(ws, n, order + 2, i, x);
        let y = get(ws, n, DELTA, i);
        put(ws, n, order + 1, i, y);
    }
}

fn add_next(ws: &mut [f64], n: usize, k: usize)
    requires { Room n ws.old × (k ≤ 5) }
    ensures { ws.new ≡ add_next n k ws.old }
{
    set_row(ws, n, k, |ws, i| get(ws, n, k, i) + get(ws, n, k + 1, i));
}

fn sum_up(ws: &mut [f64], n: usize, order: usize)
    requires { Room n ws.old × (order ≤ 5) }
    ensures { ws.new ≡ summed n order ws.old }
{
    for j in 0..order + 1 {
        add_next(ws, n, order - j);
    }
}

// Place j of component i's coefficients.
fn put_coefficient(ws: &mut [f64], n: usize, i: usize, j: usize, x: f64)
    requires { Room n ws.old × (i < n) × (j < 7) }
    ensures { ws.new ≡ slice_set ws.old (place n i j) x }
{
    ws[row(n, CONT) + (i * 7 + j)] = x;
}

fn coefficient(ws: &[f64], n: usize, order: usize, i: usize, k: usize) -> f64
    requires { Room n ws.now × (i < n) × (k < 5) }
    ensures { result ≡ coeff n ws.now order i k }
{
    if k < order { get(ws, n, k + 1, i) } else { 0.0 }
}

fn coefficients(ws: &mut [f64], n: usize, order: usize, i: usize)
    requires { Room n ws.old × (i < n) }
    ensures { ws.new ≡ coeffs n order i ws.old }
{
    for k in 0..5 {
        let x = coefficient(ws, n, order, i, k);
        put_coefficient(ws, n, i, 1 + k, x);
    }
}

fn prepare(ws: &mut [f64], n: usize, order: usize)
    requires { Room n ws.old × (order ≤ 5) }
    ensures { ws.new ≡ prepared n order ws.old }
{
    for i in 0..n {
        let x = get(ws, n, 0, i);
        put_coefficient(ws, n, i, 0, x);
        coefficients(ws, n, order, i);
        put_coefficient(ws, n, i, 6, order as f64);
    }
}

pub(crate) fn accept(ws: &mut [f64], n: usize, order: usize)
    requires { Room n ws.old × (order ≤ 5) }
    ensures { ws.new ≡ accepted_ws n order ws.old }
{
    copy(ws, row(n, Y_NEW), row(n, Y), n);
    newest(ws, n, order);
    sum_up(ws, n, order);
    prepare(ws, n, order);
}
