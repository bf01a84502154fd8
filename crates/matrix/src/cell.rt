// A matrix that is stored by rows: reading and writing its cells, and which sizes are served. A cell's place is a product,
// so its bound is shown here once and not at each use.
ghost use Rattle.std.specs.Prelude.{◌≡◌, ◌*◌, ◌<◌, length};
ghost use Rattle.loops.specs.Cell.{cell, stored};
ghost use Rattle.matrix.specs.Size.{sized_of};

// The most rows that a matrix may have.
pub const MAX_N: usize = 32;

// a[(r, c)] of n rows of n.
pub(crate) fn get(a: &[f64], n: usize, r: usize, c: usize) -> f64
    requires { (r < n) × (c < n) × (length a.now ≡ n * n) }
    ensures { result ≡ cell n a.now r c }
{
    a[r * n + c]
}

// a[(r, c)] = v.
pub(crate) fn put(a: &mut [f64], n: usize, r: usize, c: usize, v: f64)
    requires { (r < n) × (c < n) × (length a.old ≡ n * n) }
    ensures { a.new ≡ stored n a.old r c v }
{
    a[r * n + c] = v;
}

// A matrix of n rows of n numbers, lent to be read.
#[derive(Clone, Copy)]
pub(crate) struct Square<'a> {
    pub cells: &'a [f64],
    pub n: usize,
    ghost whole: { length cells.now ≡ n * n },
}

impl Square<'_> {
    // a[(r, c)]
    pub(crate) fn at(self, r: usize, c: usize) -> f64
        requires { (r < self.n) × (c < self.n) }
        ensures { result ≡ cell self.entry.n self.entry.cells.now r c }
    {
        get(self.cells, self.n, r, c)
    }
}

// Whether len numbers are n rows of n, with n from 1 to MAX_N. The product is formed only once n is known to be small.
pub(crate) fn sized(n: usize, len: usize) -> bool
    ensures { result ≡ sized_of n len }
{
    match n {
        1..=MAX_N => len == n * n,
        _ => false,
    }
}
