// A job by the bits of its numbers, and reading one. Between reader and writer numbers travel as their 64 bits: the language has one
// NaN, so a NaN that travelled as a double would lose its own.
ghost use Rattle.std.specs.Prelude.{◌≡◌, ◌+◌, ◌*◌, ◌≤◌, length};
ghost use Rattle.job.specs.Types.{max_n};
ghost use Rattle.job.specs.Packed.{place};
ghost use Rattle.job.specs.Reading.{read_number, accepted_of, form_of, form_read, placed_as, form_reading_of, read_form_of};

use crate::packed;
use crate::packed::{CELLS, HEAD, Head, OfWord, SINGLE};
use matrix::MAX_N;

// What a job has beside y0 and A, each double by its bits.
#[derive(Clone, Copy)]
pub struct Form {
    pub n: usize,
    pub max_steps: usize,
    pub newton_maxiter: usize,
    // Then first_step is not used, and its bits are 0 in a job.
    // Stays a flag beside first_step: `fits_of` refuses a form that has both, by 17, and an Option could not say it.
    pub automatic: bool,
    pub x0: u64,
    pub xend: u64,
    pub first_step: u64,
    pub rtol: u64,
    pub atol: u64,
}

// Why bytes are no job.
#[derive(Clone, Copy, Debug, PartialEq, Eq)]
pub enum ReadError {
    // More components than MAX_N.
    TooManyComponents,
    // The bytes are no job file.
    NoJob,
}

impl ReadError {
    // The number of the refusal.
    pub fn number(self) -> u64
        ensures { result ≡ read_number self }
    {
        match self {
            ReadError::TooManyComponents => 1,
            ReadError::NoJob => 17,
        }
    }
}

// The bits of y0 go to the first n places of `y0`, those of A by rows to the first n² of `a`. The other places stay, and a refusal
// changes none.
pub fn read_form(s: &[u8], y0: &mut [u64; MAX_N], a: &mut [u64; CELLS]) -> Result<Form, ReadError>
    ensures { (form_reading_of result, y0.new, a.new) ≡ read_form_of s.now y0.old a.old }
{
    placed(s, y0, a)
}

// The same, with the numbers of y0 and A as their words or as doubles.
pub(crate) fn placed<T: OfWord>(s: &[u8], y0: &mut [T], a: &mut [T]) -> Result<Form, ReadError>
    requires { (length y0.old ≡ max_n) × (length a.old ≡ max_n * max_n) }
    ensures { (form_reading_of result, y0.new, a.new) ≡ placed_as T.of_word s.now (form_read s.now) y0.old a.old }
{
    let f = form_read(s)?;
    let n = f.n;
    packed::load(s, SINGLE, &mut y0[..n]);
    packed::load(s, SINGLE + n, &mut a[..n * n]);
    Ok(f)
}

// The form, or why the bytes are no job.
fn form_read(s: &[u8]) -> Result<Form, ReadError>
    ensures { form_reading_of result ≡ form_read s.now }
{
    if s.len() < HEAD {
        return Err(ReadError::NoJob);
    }
    let h = packed::head_of(s);
    if MAX_N < h.n {
        return Err(ReadError::TooManyComponents);
    }
    if !accepted(s, h) {
        return Err(ReadError::NoJob);
    }
    Ok(form_of(s, h))
}

// Whether the length is that of n, no padding bit is set, and a first_step that is not used has only zero bits.
fn accepted(s: &[u8], h: Head) -> bool
    requires { h.n ≤ max_n }
    ensures { result ≡ accepted_of s.now h }
{
    s.len() == packed::length_for(h.n)
        && h.padding == 0
        && (!h.automatic || packed::word(s, 2) == 0)
}

// What the head and the five words behind it say.
fn form_of(s: &[u8], h: Head) -> Form
    requires { place 5 ≤ length s.now }
    ensures { result ≡ form_of s.now h }
{
    Form {
        n: h.n,
        max_steps: h.max_steps,
        newton_maxiter: h.newton_maxiter,
        automatic: h.automatic,
        x0: packed::word(s, 0),
        xend: packed::word(s, 1),
        first_step: packed::word(s, 2),
        rtol: packed::word(s, 3),
        atol: packed::word(s, 4),
    }
}
