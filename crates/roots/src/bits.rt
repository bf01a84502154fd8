// The bit patterns of doubles: the numbers by which the exponent's field and the digits are told apart, and by how many places the digits of a
// small number stand low.
ghost use Rattle.std.specs.Prelude.{◌*◌, ◌^◌, ◌≤◌, ◌<◌};

// The weight of a significand's leading digit, which a pattern does not show, and of the exponent's last digit in a pattern: 2^52.
pub(crate) const HIDDEN: u64 = 0x10_0000_0000_0000;

// the pattern of 1
pub(crate) const ONE_BITS: u64 = 0x3ff0_0000_0000_0000;

// the pattern of infinity
pub(crate) const INFINITY_BITS: u64 = 0x7ff0_0000_0000_0000;

// By how many places the first digit of b stands below bit 52.
pub(crate) fn places(b: u64) -> u64
    requires { (0 < b) × (b < 2 ^ 53) }
    ensures { (2 ^ 52 ≤ b * 2 ^ result) × (b * 2 ^ result < 2 ^ 53) × (result ≤ 52) }
{
    u64::leading_zeros(b) as u64 - 11
}
