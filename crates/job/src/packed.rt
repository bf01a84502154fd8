// A job as it is packed: a head of 40 bits, then 64-bit doubles, the most significant bit first throughout.
ghost use Rattle.std.specs.Prelude.{◌≡◌, ℕ, ◌+◌, ◌*◌, ◌≤◌, map, length};
ghost use Rattle.text.specs.Words.{word_from};
ghost use Rattle.job.specs.Types.{max_n};
ghost use Rattle.job.specs.Packed.{head_length, head_bits, head_of, place, length_for, words_of, value_of};

use matrix::MAX_N;

// The most cells of a job's matrix.
pub const CELLS: usize = MAX_N * MAX_N;

// The bytes of the head.
pub(crate) const HEAD: usize = 5;

// The doubles before y0: x0, xend, first_step, rtol, atol.
pub(crate) const SINGLE: usize = 5;

// No job file is longer.
pub const LONGEST: usize = HEAD + 8 * (SINGLE + MAX_N + CELLS);

// How many bytes a job of n components has.
pub(crate) fn length_for(n: usize) -> usize
    requires { n ≤ max_n }
    ensures { result ≡ length_for n }
{
    HEAD + 8 * (SINGLE + n + n * n)
}

// The head's fields, in their order. `padding` is what stands behind them.
#[derive(Clone, Copy)]
pub(crate) struct Head {
    pub n: usize,
    pub max_steps: usize,
    pub newton_maxiter: usize,
    pub automatic: bool,
    pub padding: u64,
}

// The five bytes of the head as one number.
fn head_bits(s: &[u8]) -> u64
    requires { head_length ≤ length s.now }
    ensures { result ≡ head_bits s.now }
{
    u64::from_be_bytes([0, 0, 0, s[0], s[1], s[2], s[3], s[4]])
}

// 6 bits, 20, 7, 1 and 6: each is what is left above those behind it, without those before it.
pub(crate) fn head_of(s: &[u8]) -> Head
    requires { head_length ≤ length s.now }
    ensures { result ≡ head_of (head_bits s.now) }
{
    let w = head_bits(s);
    Head {
        n: (w / 0x4_0000_0000 % 0x40) as usize,
        max_steps: (w / 0x4000 % 0x10_0000) as usize,
        newton_maxiter: (w / 0x80 % 0x80) as usize,
        automatic: w / 0x40 % 2 != 0,
        padding: w % 0x40,
    }
}

// The word of the i-th double.
pub(crate) fn word(s: &[u8], i: usize) -> u64
    requires { place (i + 1) ≤ length s.now }
    ensures { result ≡ word_from s.now (place i) }
{
    text::word_at(s, HEAD + 8 * i).unwrap()
}

// What a number of a job is read as: its word, or the double whose bits the word has.
pub(crate) trait OfWord: Copy {
    ghost of_word: { ℕ → Self };

    fn of_word(w: u64) -> Self
        ensures { result ≡ of_word w };
}

impl OfWord for u64 {
    ghost of_word = { λ w. w };

    fn of_word(w: u64) -> u64 {
        w
    }
}

impl OfWord for f64 {
    ghost of_word = { value_of };

    fn of_word(w: u64) -> f64 {
        text::double(w)
    }
}

// The places of `to` take the numbers from the i-th on.
pub(crate) fn load<T: OfWord>(s: &[u8], i: usize, to: &mut [T])
    requires { place (i + length to.old) ≤ length s.now }
    ensures { to.new ≡ map T.of_word (words_of s.now i (length to.old)) }
{
    for (k, number) in to.iter_mut().enumerate() {
        *number = T::of_word(word(s, i + k));
    }
}
