// The tolerances of a beginning, each with the slice that is lent beside it.
ghost use Rattle.std.specs.Prelude.{◌≡◌, ◌+◌, ◌≤◌, true, length};
ghost use Rattle.rules.specs.Checks.{entry as entry_of, reaches as reaches_of};
ghost use Rattle.rules.specs.Begin.{least as least_of, tolerances};

use crate::moves::{fill, load};
use crate::order::infinity;
use rules::types::Tolerance;

// One number for every component, or one each in `values`.
#[derive(Clone, Copy)]
pub(crate) struct Bound<'a> {
    pub by: Tolerance,
    pub values: &'a [f64],
}

#[derive(Clone, Copy)]
pub(crate) struct Tolerances<'a> {
    pub relative: Bound<'a>,
    pub absolute: Bound<'a>,
}

impl Bound<'_> {
    pub(crate) fn reaches(self, n: usize) -> bool
        ensures { result ≡ reaches_of self.entry.by self.entry.values.now n }
    {
        match self.by {
            Tolerance::Scalar(_) => true,
            Tolerance::Vector => n <= self.values.len(),
        }
    }

    pub(crate) fn entry(self, i: usize) -> f64
        requires { reaches_of self.by self.values.now (i + 1) ≡ true }
        ensures { result ≡ entry_of self.entry.by self.entry.values.now i }
    {
        match self.by {
            Tolerance::Scalar(x) => x,
            Tolerance::Vector => self.values[i],
        }
    }

    pub(crate) fn least(self, n: usize) -> f64
        requires { reaches_of self.by self.values.now n ≡ true }
        ensures { result ≡ least_of self.entry.by self.entry.values.now n }
    {
        let mut m = infinity();
        for i in 0..n {
            m = number::min(m, self.entry(i));
        }
        m
    }

    // Into the n places from `to` on.
    pub(crate) fn lay(self, ws: &mut [f64], to: usize, n: usize)
        requires { (reaches_of self.by self.values.now n ≡ true) × (to + n ≤ length ws.old) }
        ensures { ws.new ≡ tolerances self.entry.by self.entry.values.now to n ws.old }
    {
        match self.by {
            Tolerance::Scalar(x) => fill(ws, to, n, x),
            Tolerance::Vector => load(ws, self.values, 0, to, n),
        }
    }
}
