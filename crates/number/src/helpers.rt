// abs, signum, min and max of a double. Each is a few instructions with no jump.
// Stays written out: f64's own `min` and `max` leave open which of two zeros they give, and its `abs` takes two comparisons for one mask.

ghost use Rattle.std.specs.Prelude.{◌≡◌};
ghost use Rattle.number.specs.Helpers.{abs_of, signum_of, min_of, max_of};

// The sign's bit is the highest: abs clears it and signum reads it. A NaN's bits may not be read, and need not be.
pub fn abs(x: f64) -> f64
    ensures { result ≡ abs_of x }
{
    if x != x {
        return x;
    }
    f64::from_bits(f64::to_bits(x) & 0x7fff_ffff_ffff_ffff)
}

pub fn signum(x: f64) -> f64
    ensures { result ≡ signum_of x }
{
    if x != x {
        return x;
    }
    if f64::to_bits(x) < 0x8000_0000_0000_0000 {
        1.0
    } else {
        -1.0
    }
}

pub fn min(x: f64, y: f64) -> f64
    ensures { result ≡ min_of x y }
{
    if x != x {
        return y;
    }
    if y < x { y } else { x }
}

pub fn max(x: f64, y: f64) -> f64
    ensures { result ≡ max_of x y }
{
    if x != x {
        return y;
    }
    if x < y { y } else { x }
}
