// Rescaling the differences D to another step size: `compute_r`, `matmul` and `change_d` of the Rust. A table of
// order + 1 rows is an array of 36, its entry (i, j) at i * 6 + j. The table at factor 1.0 is `unit`'s.
ghost use Rattle.std.specs.Prelude.{◌≡◌, ◌+◌, ◌*◌, ◌<◌, ◌≤◌, length};
ghost use Rattle.loops.specs.Arithmetic.{one};
ghost use Rattle.matrix.specs.Size.{max_n};
ghost use Rattle.rules.specs.Tables.{max_order};
ghost use Rattle.rules.specs.Rescale.{first_row, m_row, m_table, r_row, r_table, compute_r, add_scaled, product_row, matmul as product, new_row, new_rows, change_d};

use crate::moves::load;
use matrix::MAX_N;
use unit::unit_r;

// Room for six new rows of as many components as there can be.
const ROOM: usize = 6 * MAX_N;

// Row 0 of m and of r: ones.
fn first_row(size: usize) -> [f64; 36]
    requires { size ≤ 6 }
    ensures { result ≡ first_row size }
{
    let mut m = [0.0; 36];
    for j in 0..size {
        m[j] = 1.0;
    }
    m
}

fn m_row(m: &mut [f64; 36], factor: f64, size: usize, i: usize)
    requires { (i < size) × (size ≤ 6) }
    ensures { m.new ≡ m_row factor size i m.old }
{
    let row = i * 6;
    let above = i as f64;
    for j in 1..size {
        m[row + j] = (above - 1.0 - factor * j as f64) / above;
    }
}

fn m_table(factor: f64, size: usize) -> [f64; 36]
    requires { (1 ≤ size) × (size ≤ 6) }
    ensures { result ≡ m_table factor size }
{
    let mut m = first_row(size);
    for i in 1..size {
        m_row(&mut m, factor, size, i);
    }
    m
}

fn r_row(r: &mut [f64; 36], m: &[f64; 36], size: usize, i: usize)
    requires { (1 ≤ i) × (i < 6) × (size ≤ 6) }
    ensures { r.new ≡ r_row m.now size i r.old }
{
    let row = i * 6;
    let last = (i - 1) * 6;
    for j in 0..size {
        r[row + j] = r[last + j] * m[row + j];
    }
}

fn r_table(m: &[f64; 36], size: usize) -> [f64; 36]
    requires { (1 ≤ size) × (size ≤ 6) }
    ensures { result ≡ r_table m.now size }
{
    let mut r = first_row(size);
    for i in 1..size {
        r_row(&mut r, m, size, i);
    }
    r
}

fn compute_r(order: usize, factor: f64) -> [f64; 36]
    requires { order ≤ max_order }
    ensures { result ≡ compute_r order factor }
{
    let m = m_table(factor, order + 1);
    r_table(&m, order + 1)
}

// to[i] += coeff * source[k], for rows that are `wide` apart and have `count` places.
fn add_scaled(
    to: &mut [f64],
    i: usize,
    coeff: f64,
    source: &[f64],
    k: usize,
    wide: usize,
    count: usize,
)
    requires { (i * wide + count ≤ length to.old) × (k * wide + count ≤ length source.now) }
    ensures { to.new ≡ add_scaled wide count coeff source.now k i to.old }
{
    if coeff == 0.0 {
        return;
    }
    let row = i * wide;
    let other = k * wide;
    for j in 0..count {
        to[row + j] = to[row + j] + coeff * source[other + j];
    }
}

fn product_row(res: &mut [f64], a: &[f64; 36], b: &[f64; 36], size: usize, i: usize)
    requires { (length res.old ≡ 36) × (i < 6) × (size ≤ 6) }
    ensures { res.new ≡ product_row a.now b.now size i res.old }
{
    for k in 0..size {
        add_scaled(res, i, a[i * 6 + k], b, k, 6, size);
    }
}

fn matmul(a: &[f64; 36], b: &[f64; 36], size: usize) -> [f64; 36]
    requires { size ≤ 6 }
    ensures { result ≡ product a.now b.now size }
{
    let mut res = [0.0; 36];
    for i in 0..size {
        product_row(&mut res, a, b, size, i);
    }
    res
}

// ru: the table at the factor, times the unit coefficients.
fn ru_of<const ORDER: usize>(factor: f64) -> [f64; 36]
    requires { ORDER ≤ max_order }
    ensures { result ≡ product (compute_r ORDER factor) (compute_r ORDER one) (ORDER + 1) }
{
    let r = compute_r(ORDER, factor);
    let u = unit_r();
    matmul(&r, &u, ORDER + 1)
}

// The same, for speed: in each call the order is a literal, so the compiler unrolls the loops and folds the unit coefficients in. With the
// variable in even one of the calls change_d takes 1.1 to 1.5 times as long.
fn ru_by_order(order: usize, factor: f64) -> [f64; 36]
    requires { (1 ≤ order) × (order ≤ max_order) }
    ensures { result ≡ product (compute_r order factor) (compute_r order one) (order + 1) }
{
    match order {
        1 => ru_of::<1>(factor),
        2 => ru_of::<2>(factor),
        3 => ru_of::<3>(factor),
        4 => ru_of::<4>(factor),
        _ => ru_of::<5>(factor),
    }
}

fn new_row(scratch: &mut [f64], ru: &[f64; 36], d: &[f64], n: usize, size: usize, i: usize)
    requires { (i < 6) × (size ≤ 6) × (i * n + n ≤ length scratch.old) × (6 * n ≤ length d.now) }
    ensures { scratch.new ≡ new_row n ru.now d.now size i scratch.old }
{
    for k in 0..size {
        add_scaled(scratch, i, ru[k * 6 + i], d, k, n, n);
    }
}

fn new_rows(ru: &[f64; 36], d: &[f64], n: usize, size: usize) -> [f64; ROOM]
    requires { (size ≤ 6) × (n ≤ max_n) × (6 * n ≤ length d.now) }
    ensures { result ≡ new_rows n ru.now d.now size }
{
    let mut scratch = [0.0; ROOM];
    for i in 0..size {
        new_row(&mut scratch, ru, d, n, size, i);
    }
    scratch
}

// D at the step size that is `factor` times the present one. The orders of the run are 1 to 5.
pub(crate) fn change_d(d: &mut [f64], n: usize, order: usize, factor: f64)
    requires { (1 ≤ order) × (order ≤ max_order) × (n ≤ max_n) × (6 * n ≤ length d.old) }
    ensures { d.new ≡ change_d n order factor d.old }
{
    if factor == 1.0 {
        return;
    }
    let size = order + 1;
    let ru = ru_by_order(order, factor);
    let scratch = new_rows(&ru, d, n, size);
    load(d, &scratch, 0, 0, size * n);
}
