// A double and its bit pattern, both ways. A NaN has many patterns and stands here for one, so each way asks first.
ghost use Rattle.std.specs.Prelude.{◌≡◌};
ghost use Rattle.std.specs.Float.{binary64};
ghost use Rattle.std.specs.Float.Ieee.{to_bits, of_bits};

// The bit pattern of x. A NaN's is 7FF8000000000000, whatever pattern the machine holds for it.
pub fn bits(x: f64) -> u64
    ensures { result ≡ to_bits binary64 x }
{
    if x != x {
        return 0x7FF8_0000_0000_0000;
    }
    f64::to_bits(x)
}

// The double whose pattern is w. With its sign taken off, a NaN's pattern is a number above the infinity's.
pub fn double(w: u64) -> f64
    ensures { result ≡ of_bits binary64 w }
{
    if w % 0x8000_0000_0000_0000 > 0x7FF0_0000_0000_0000 {
        return 0.0 / 0.0;
    }
    f64::from_bits(w)
}
