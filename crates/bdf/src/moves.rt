// Copies and fills, over plain places of a slice.
ghost use Rattle.std.specs.Prelude.{◌≡◌, ◌+◌, ◌≤◌, length};
ghost use Rattle.rules.specs.Moves.{copied, filled, loaded};

// count places from `to` on take those from `from` on.
// Stays a loop: `copied` stores place by place, and copy_within differs from it where the two parts overlap.
pub(crate) fn copy(l: &mut [f64], from: usize, to: usize, count: usize)
    requires { (from + count ≤ length l.old) × (to + count ≤ length l.old) }
    ensures { l.new ≡ copied from to count l.old }
{
    for i in 0..count {
        let x = l[from + i];
        l[to + i] = x;
    }
}

// count places from `to` on take x.
// Stays a loop, as load: with the library's fill and copy_from_slice a whole run of two components takes 1 in a hundred more instructions.
pub(crate) fn fill(l: &mut [f64], to: usize, count: usize, x: f64)
    requires { to + count ≤ length l.old }
    ensures { l.new ≡ filled to count x l.old }
{
    for i in 0..count {
        l[to + i] = x;
    }
}

// count places from `to` on take those of values from `from` on.
pub(crate) fn load(l: &mut [f64], values: &[f64], from: usize, to: usize, count: usize)
    requires { (from + count ≤ length values.now) × (to + count ≤ length l.old) }
    ensures { l.new ≡ loaded values.now from to count l.old }
{
    for i in 0..count {
        l[to + i] = values[from + i];
    }
}
