// Solving with the factors of `lu_decomp`. Beside the Rust's matrix/linear.rs.
ghost use Rattle.std.specs.Prelude.{◌≡◌, ◌-◌, ◌≤◌, ◌<◌, length};
ghost use Rattle.loops.specs.Loop.{loop};
ghost use Rattle.matrix.specs.Linear.{solution_of, inside_of, Inside, swapped, added_turn, forward_turn, divided_of, back_turn, solved_of, lin_solve_of};

use crate::cell::{Square, sized};
use std::ops::Range;

// Why `lin_solve` refuses. A refusal changes nothing.
#[derive(Clone, Copy)]
pub enum SolveError {
    // Refusal 14: n is 0 or above MAX_N, a is not n * n long, or b not n.
    WrongSize,
    // Refusal 16: one of the first n - 1 pivots is n or more.
    PivotOutside,
}

// Whether the pivots that are read, the first n - 1, all name a row.
fn pivots_inside(ip: &[usize], n: usize) -> bool
    requires { (0 < n) × (length ip.now ≡ n) }
    ensures { result ≡ inside_of n ip.now }
{
    ip[..n - 1].iter().all(|&m| m < n)
}

// b[m] and b[k] change places.
// Stays two reads and two writes: the library's `swap` asks first which place is the lower, and with it `lin_solve` takes 6 in a hundred
// instructions more.
fn swap(b: &mut [f64], m: usize, k: usize)
    requires { (m < length b.old) × (k < length b.old) }
    ensures { b.new ≡ swapped m k b.old }
{
    let bm = b[m];
    let bk = b[k];
    b[m] = bk;
    b[k] = bm;
}

// b[i] += a[(i, k)] * t for each of some rows i.
fn add_column(a: Square, b: &mut [f64], k: usize, t: f64, rows: Range<usize>)
    requires { (k < a.n) × (rows.start ≤ rows.end) × (rows.end ≤ a.n) × (length b.old ≡ a.n) }
    ensures { b.new ≡ loop rows.start rows.end (added_turn a.entry.n a.entry.cells.now k t) b.old }
{
    for i in rows.start..rows.end {
        b[i] += a.at(i, k) * t;
    }
}

// Forward elimination, each row exchanged as LU exchanged it.
fn forward(a: Square, b: &mut [f64], ip: &[usize])
    requires { (0 < a.n) × (length b.old ≡ a.n) × (length ip.now ≡ a.n) × Inside a.n ip.now }
    ensures { b.new ≡ loop 0 (a.entry.n - 1) (forward_turn a.entry.n a.entry.cells.now ip.now) b.old }
{
    for k in 0..a.n - 1 {
        swap(b, ip[k], k);
        let t = b[k];
        add_column(a, b, k, t, k + 1..a.n);
    }
}

// b[k] /= a[(k, k)]
fn divide(a: Square, b: &mut [f64], k: usize)
    requires { (k < a.n) × (length b.old ≡ a.n) }
    ensures { b.new ≡ divided_of a.entry.n a.entry.cells.now k b.old }
{
    b[k] /= a.at(k, k);
}

// Back substitution, from the last row up to the second.
fn back(a: Square, b: &mut [f64])
    requires { (0 < a.n) × (length b.old ≡ a.n) }
    ensures { b.new ≡ loop 1 a.entry.n (back_turn a.entry.n a.entry.cells.now) b.old }
{
    for kb in 1..a.n {
        let k = a.n - kb;
        divide(a, b, k);
        let t = -b[k];
        add_column(a, b, k, t, 0..k);
    }
}

// Both phases, and the division that is left for the first element.
fn solve(a: Square, b: &mut [f64], ip: &[usize])
    requires { (0 < a.n) × (length b.old ≡ a.n) × (length ip.now ≡ a.n) × Inside a.n ip.now }
    ensures { b.new ≡ solved_of a.entry.n a.entry.cells.now ip.now b.old }
{
    forward(a, b, ip);
    back(a, b);
    divide(a, b, 0);
}

// Puts the solution of the factored system in b's place, n being ip's length: see `lin_solve_of`.
pub fn lin_solve(a: &[f64], b: &mut [f64], ip: &[usize]) -> Result<(), SolveError>
    ensures { (solution_of result, b.new) ≡ lin_solve_of a.now b.old ip.now }
{
    let n = ip.len();
    if !sized(n, a.len()) || b.len() != n {
        return Err(SolveError::WrongSize);
    }
    if !pivots_inside(ip, n) {
        return Err(SolveError::PivotOutside);
    }
    let square = Square { cells: a, n };
    solve(square, b, ip);
    Ok(())
}
