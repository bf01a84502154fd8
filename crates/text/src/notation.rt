// Notations: a base, and the code of each digit in it. A number stands as its digits, the most significant first.
ghost use Rattle.std.specs.Prelude.{ℕ, List, ◌≡◌, ◌<◌, length};
ghost use Rattle.text.specs.Digits.{spelled};
ghost use Rattle.text.specs.Digits.{digit as digit_of};
ghost use Rattle.text.specs.Words.{bytes_of};
ghost use Rattle.text.specs.laws.Notations.{NotationLaws, code_of_byte, decimal_laws, hexadecimal_laws, bytes_laws};

pub(crate) trait Notation {
    ghost BASE: { ℕ };

    // The code of a digit.
    ghost code: { ℕ → ℕ };

    // The last so many digits of a number.
    ghost digits: { ℕ → ℕ → List ℕ };

    const BASE: u64;

    fn code(digit: u64) -> u8
        requires { digit < BASE }
        ensures { result ≡ code digit };

    ghost laws: { NotationLaws BASE code digits };
}

// Text: `0` to `9`.
pub(crate) struct Decimal;

// Text: `0` to `9`, then `A` to `F`.
pub(crate) struct Hexadecimal;

// Bytes as they are.
pub(crate) struct Bytes;

impl Notation for Decimal {
    ghost BASE = { 10 };

    ghost code = { digit_of };

    ghost digits = { spelled 10 };

    ghost laws = { decimal_laws };

    const BASE: u64 = 10;

    fn code(digit: u64) -> u8 {
        code_of_digit(digit)
    }
}

impl Notation for Hexadecimal {
    ghost BASE = { 16 };

    ghost code = { digit_of };

    ghost digits = { spelled 16 };

    ghost laws = { hexadecimal_laws };

    const BASE: u64 = 16;

    fn code(digit: u64) -> u8 {
        code_of_digit(digit)
    }
}

impl Notation for Bytes {
    ghost BASE = { 256 };

    ghost code = { code_of_byte };

    ghost digits = { bytes_of };

    ghost laws = { bytes_laws };

    const BASE: u64 = 256;

    fn code(digit: u64) -> u8 {
        digit as u8
    }
}

const DIGITS: [u8; 16] = *b"0123456789ABCDEF";

fn code_of_digit(digit: u64) -> u8
    requires { digit < 16 }
    ensures { result ≡ digit_of digit }
{
    DIGITS[digit as usize]
}

// Stays our own digits: `write!` may fail for all that its contract says, and says nothing of the page then, so it could not promise `puts`.
// From the last digit to the first: each is the remainder of what is left.
pub(crate) fn spell<N: Notation>(room: &mut [u8], n: u64)
    ensures { room.new ≡ N.digits (length room.old) n }
{
    let mut rest = n;
    for i in (0..room.len()).rev() {
        room[i] = N::code(rest % N::BASE);
        rest /= N::BASE;
    }
}
