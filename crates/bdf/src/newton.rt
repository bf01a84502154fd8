// One turn of the simplified Newton iteration.
ghost use Rattle.std.specs.Prelude.{◌≡◌, ◌+◌, ◌*◌, ◌<◌, ◌≤◌, length};
ghost use Rattle.rules.specs.laws.Ready.{Room};
ghost use Rattle.rules.specs.Newton.{residual as residual_of, solved, correction, advanced_at, advanced, power as power_of, too_slow, settled as settled_of, converged as converged_of, gave_up};

use crate::moves::load;
use crate::places::{DELTA, PSI, RHS, Y_NEW, get, put, row, set_row};
use matrix::MAX_N;

fn residual(ws: &mut [f64], n: usize, c: f64)
    requires { Room n ws.old }
    ensures { ws.new ≡ residual_of n c ws.old }
{
    set_row(
        ws,
        n,
        RHS,
        |ws, i| c * get(ws, n, RHS, i) - get(ws, n, PSI, i) - get(ws, n, DELTA, i),
    );
}

// With b, n numbers, for the right side: lin_solve changes it while it reads the matrix of the same workspace.
fn solve_by(ws: &mut [f64], b: &mut [f64], n: usize, pivot: &[usize])
    requires { Room n ws.old × (length b.old ≡ n) × (n ≤ length pivot.now) }
    ensures { ws.new ≡ solved n pivot.now ws.old }
{
    let at = row(n, RHS);
    let from = n * n;
    let to = n * n + n * n;
    load(b, ws, at, 0, n);
    // Refused or not, what it left is taken.
    let _ = matrix::lin_solve(&ws[from..to], b, &pivot[..n]);
    load(ws, b, 0, at, n);
}

fn solve(ws: &mut [f64], n: usize, pivot: &[usize])
    requires { Room n ws.old × (n ≤ length pivot.now) }
    ensures { ws.new ≡ solved n pivot.now ws.old }
{
    let mut b = [0.0; MAX_N];
    solve_by(ws, &mut b[..n], n, pivot);
}

// The correction: from the derivative's values to the solution of the linear system, in rhs.
pub(crate) fn correct(ws: &mut [f64], n: usize, c: f64, pivot: &[usize], values: &[f64])
    requires { Room n ws.old × (n ≤ length values.now) × (n ≤ length pivot.now) }
    ensures { ws.new ≡ correction n c pivot.now values.now ws.old }
{
    load(ws, values, 0, row(n, RHS), n);
    residual(ws, n, c);
    solve(ws, n, pivot);
}

fn advance_at(ws: &mut [f64], n: usize, v: usize, i: usize)
    requires { Room n ws.old × (v < 33) × (i < n) }
    ensures { ws.new ≡ advanced_at n v i ws.old }
{
    let x = get(ws, n, v, i) + get(ws, n, RHS, i);
    put(ws, n, v, i, x);
}

pub(crate) fn advance(ws: &mut [f64], n: usize)
    requires { Room n ws.old }
    ensures { ws.new ≡ advanced n ws.old }
{
    for i in 0..n {
        advance_at(ws, n, Y_NEW, i);
        advance_at(ws, n, DELTA, i);
    }
}

// x times itself left to right.
fn power(x: f64, k: usize) -> f64
    requires { k ≤ 64 }
    ensures { result ≡ power_of x k }
{
    (0..k).fold(1.0, |p, _| p * x)
}

fn too_slow(tol: f64, remaining: usize, prev: f64, norm: f64) -> bool
    requires { remaining ≤ 64 }
    ensures { result ≡ too_slow tol remaining prev norm }
{
    let rate = norm / prev;
    if rate >= 1.0 {
        return true;
    }
    power(rate, remaining) / (1.0 - rate) * norm > tol
}

fn settled(tol: f64, prev: f64, norm: f64) -> bool
    ensures { result ≡ settled_of tol prev norm }
{
    let rate = norm / prev;
    if rate < 1.0 {
        return rate / (1.0 - rate) * norm < tol;
    }
    false
}

pub(crate) fn converged(tol: f64, iters: usize, prev: f64, norm: f64) -> bool
    ensures { result ≡ converged_of tol iters prev norm }
{
    if norm == 0.0 {
        return true;
    }
    if 0 < iters && prev > 0.0 {
        return settled(tol, prev, norm);
    }
    false
}

pub(crate) fn gave_up(tol: f64, m: usize, iters: usize, prev: f64, norm: f64) -> bool
    requires { (iters < m) × (m ≤ 64) }
    ensures { result ≡ gave_up tol m iters prev norm }
{
    if 0 < iters && prev > 0.0 {
        return too_slow(tol, m - iters, prev, norm) || m <= iters + 1;
    }
    m <= iters + 1
}
