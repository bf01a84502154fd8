// LU decomposition with partial pivoting. Beside the Rust's matrix/lu.rs, the real half.
ghost use Rattle.std.specs.Prelude.{◌≡◌, ◌+◌, ◌-◌, ◌*◌, ◌≤◌, ◌<◌, length};
ghost use Rattle.loops.specs.Cell.{cell};
ghost use Rattle.loops.specs.Loop.{loop};
ghost use Rattle.matrix.specs.Magnitude.{magnitude_of};
ghost use Rattle.matrix.specs.Lu.{factoring_of, pivot_of, exchanged_of, stage_of, stages_of, lu_decomp_of};
ghost use Rattle.matrix.specs.Rows.{added_of, cell_turn, row_turn, Zeros};

use crate::cell::{Square, get, put, sized};

// Why `lu_decomp` refuses.
#[derive(Clone, Copy)]
pub enum LuError {
    // Refusal 14: n is 0 or above MAX_N, or a is not n * n long. Nothing was changed.
    WrongSize,
    // Refusal 15: a pivot is zero. The stages before it were done.
    Singular,
}

// |x|, but for -0, which stays: a comparison does not tell the two zeros apart.
fn magnitude(x: f64) -> f64
    ensures { result ≡ magnitude_of x }
{
    if x < 0.0 { -x } else { x }
}

// The row of the first largest magnitude of column k, from the diagonal down.
fn pivot_row(a: Square, k: usize) -> usize
    requires { k < a.n }
    ensures { (result < a.entry.n) × (result ≡ pivot_of a.entry.n a.entry.cells.now k) }
{
    let mut m = k;
    let mut max_val = magnitude(a.at(k, k));
    for i in k + 1..a.n {
        let val = magnitude(a.at(i, k));
        if val > max_val {
            max_val = val;
            m = i;
        }
    }
    m
}

// a[(m, j)] and a[(k, j)] change places.
// Stays two reads and two writes: `swap` asks first which place is the lower, and that test, hard to foresee, costs more than the writes.
// Stays a slice beside its n, here and below: a struct of both needs two clauses a function, that neither changes, for the one that it spares.
fn exchange(a: &mut [f64], n: usize, m: usize, k: usize, j: usize)
    requires { (m < n) × (k < n) × (j < n) × (length a.old ≡ n * n) }
    ensures { a.new ≡ exchanged_of n m k j a.old }
{
    let tmp = get(a, n, m, j);
    let other = get(a, n, k, j);
    put(a, n, m, j, other);
    put(a, n, k, j, tmp);
}

// Rows m and k change places, from column k on.
fn exchange_rows(a: &mut [f64], n: usize, m: usize, k: usize)
    requires { (m < n) × (k < n) × (length a.old ≡ n * n) }
    ensures { a.new ≡ loop k n (exchanged_of n m k) a.old }
{
    for j in k..n {
        exchange(a, n, m, k, j);
    }
}

// x + l * t, and x itself where t is zero. One value either way, so that a row is worked on without branches.
fn added(x: f64, l: f64, t: f64) -> f64
    ensures { result ≡ added_of x l t }
{
    if t != 0.0 { x + l * t } else { x }
}

// Where the zeros begin with which row k ends.
fn reach(a: Square, k: usize) -> usize
    requires { k < a.n }
    ensures { (k < result) × (result ≤ a.entry.n) × Zeros a.entry.n k result a.entry.cells.now }
{
    for zeros in 0..a.n - k - 1 {
        let end = a.n - zeros;
        if a.at(k, end - 1) != 0.0 {
            return end;
        }
    }
    k + 1
}

// Along row i: a[(i, j)] += a[(i, k)] * a[(k, j)], unless a[(k, j)] is zero, as all are from `end` on. l is a[(i, k)], which the
// loop does not change.
fn eliminate(a: &mut [f64], n: usize, k: usize, i: usize, l: f64, end: usize)
    requires { (k < i) × (i < n) × (length a.old ≡ n * n) × (cell n a.old i k ≡ l) × (k < end) × (end ≤ n) × Zeros n k end a.old }
    ensures { (a.new ≡ loop (k + 1) n (cell_turn n k i) a.old) × Zeros n k end a.new }
{
    for j in k + 1..end {
        let t = get(a, n, k, j);
        let x = get(a, n, i, j);
        let y = added(x, l, t);
        put(a, n, i, j, y);
    }
}

// Each row below k: its multiplier, with its sign turned, then the elimination along it, as far as row k reaches.
fn rows(a: &mut [f64], n: usize, k: usize, t: f64)
    requires { (k < n) × (length a.old ≡ n * n) }
    ensures { a.new ≡ loop (k + 1) n (row_turn n k t) a.old }
{
    let end = reach(Square { cells: a, n }, k);
    for i in k + 1..n {
        let x = get(a, n, i, k);
        let l = -x * t;
        put(a, n, i, k, l);
        eliminate(a, n, k, i, l, end);
    }
}

// Stage k, with the pivot in row m. It goes row by row where the definition goes column by column: the same operations on each
// number, in an order in which they lie side by side.
fn stage(a: &mut [f64], n: usize, m: usize, k: usize)
    requires { (m < n) × (k < n) × (length a.old ≡ n * n) }
    ensures { a.new ≡ stage_of n m k a.old }
{
    let pivot = get(a, n, m, k);
    exchange_rows(a, n, m, k);
    rows(a, n, k, 1.0 / pivot);
}

// The stages one after the other, until a pivot is zero.
fn stages(a: &mut [f64], ip: &mut [usize], n: usize) -> Result<(), LuError>
    requires { (0 < n) × (length ip.old ≡ n) × (length a.old ≡ n * n) }
    ensures { (factoring_of result, a.new, ip.new) ≡ stages_of n (n - 1) 0 a.old ip.old }
{
    let nm1 = n - 1;
    for k in 0..nm1 {
        let m = pivot_row(Square { cells: a, n }, k);
        ip[k] = m;
        if get(a, n, m, k) == 0.0 {
            return Err(LuError::Singular);
        }
        stage(a, n, m, k);
    }
    if get(a, n, nm1, nm1) == 0.0 {
        return Err(LuError::Singular);
    }
    Ok(())
}

// Factors the n by n matrix a in place, n being ip's length, and puts the pivots into ip: see `lu_decomp_of`.
pub fn lu_decomp(a: &mut [f64], ip: &mut [usize]) -> Result<(), LuError>
    ensures { (factoring_of result, a.new, ip.new) ≡ lu_decomp_of a.old ip.old }
{
    let n = ip.len();
    if !sized(n, a.len()) {
        return Err(LuError::WrongSize);
    }
    if n == 1 {
        if a[0] == 0.0 {
            return Err(LuError::Singular);
        }
        ip[0] = 0;
        return Ok(());
    }
    stages(a, ip, n)
}
