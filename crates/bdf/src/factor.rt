// The matrix I - c * J, and its factoring.
ghost use Rattle.std.specs.Prelude.{◌≡◌, ◌<◌, ◌≤◌, length};
ghost use Rattle.rules.specs.laws.Ready.{Room};
ghost use Rattle.rules.specs.State.{left};
ghost use Rattle.bdf.specs.Factoring.{factors};
ghost use Rattle.rules.specs.Factor.{matrix_cells, diagonal as diagonal_of, matrix as matrix_of, factored};

use crate::places::{get_lu, jac, put_lu};

fn matrix_cells(ws: &mut [f64], n: usize, c: f64, r: usize)
    requires { Room n ws.old × (r < n) }
    ensures { ws.new ≡ matrix_cells n c r ws.old }
{
    for j in 0..n {
        let x = -c * jac(ws, n, r, j);
        put_lu(ws, n, r, j, x);
    }
}

fn diagonal(ws: &mut [f64], n: usize, r: usize)
    requires { Room n ws.old × (r < n) }
    ensures { ws.new ≡ diagonal_of n r ws.old }
{
    let x = get_lu(ws, n, r, r) + 1.0;
    put_lu(ws, n, r, r, x);
}

fn matrix_rows(ws: &mut [f64], n: usize, c: f64)
    requires { Room n ws.old }
    ensures { ws.new ≡ matrix_of n c ws.old }
{
    for r in 0..n {
        matrix_cells(ws, n, c, r);
        diagonal(ws, n, r);
    }
}

pub(crate) fn factor(ws: &mut [f64], n: usize, c: f64, pivot: &mut [usize]) -> bool
    requires { Room n ws.old × (n ≤ length pivot.old) }
    ensures { left (factors result pivot.new) ws.new ≡ factored n c pivot.old ws.old }
{
    matrix_rows(ws, n, c);
    let from = n * n;
    let to = n * n + n * n;
    matrix::lu_decomp(&mut ws[from..to], &mut pivot[..n]).is_ok()
}
