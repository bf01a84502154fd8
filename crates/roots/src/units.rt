// The value of a double's bit pattern in units of 2^-1074, the smallest double.
ghost use Rattle.std.specs.Prelude.{◌<◌};
ghost use Rattle.roots.specs.Roots.{infinity_bits};
ghost use Rattle.roots.specs.Scaled.{Scaled};

use crate::bits::HIDDEN;

// A finite number from 0 on: digits * 2^places units.
#[derive(Clone, Copy)]
pub(crate) struct Units {
    pub digits: u64,
    pub places: u64,
}

// The value of a pattern.
pub(crate) fn units_of(b: u64) -> Units
    requires { b < infinity_bits }
    ensures { Scaled b result.digits result.places }
{
    if b < HIDDEN {
        Units {
            digits: b,
            places: 0,
        }
    } else {
        Units {
            digits: HIDDEN + b % HIDDEN,
            places: b / HIDDEN - 1,
        }
    }
}
