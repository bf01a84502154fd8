// Writing a packed job into a lent slice.
ghost use Rattle.std.specs.Prelude.{◌≡◌, ◌++◌, true, ◌+◌, ◌*◌, ◌^◌, ◌≤◌, ◌<◌, length, drop};
ghost use Rattle.text.specs.Page.{SamePage, puts, room_for, seen};
ghost use Rattle.job.specs.Types.{max_n};
ghost use Rattle.job.specs.Packed.{length_for};
ghost use Rattle.job.specs.Reading.{job_of};
ghost use Rattle.job.specs.Writing.{head_for, joined, write_number, packed_of, fits_of, begins_of, begun_of, judged_of, writing_of, write_of};

use crate::form::Form;
use crate::packed;
use crate::packed::HEAD;
use matrix::MAX_N;
use text::Page;

// Why a form is not written.
#[derive(Clone, Copy, Debug, PartialEq, Eq)]
pub enum WriteError {
    // More components than MAX_N.
    TooManyComponents,
    // The form cannot be a job.
    NoJob,
    // The solver would refuse to begin the job, by the same number: a tolerance is below 0,
    NegativeTolerance,
    // max_steps is 0,
    NoSteps,
    // max_steps or newton_maxiter is too large,
    LimitTooLarge,
    // or first_step is 0.
    ZeroFirstStep,
    // The slice is shorter than the job.
    SliceShort,
}

impl WriteError {
    // The number of the refusal.
    pub fn number(self) -> u64
        ensures { result ≡ write_number self }
    {
        match self {
            WriteError::TooManyComponents => 1,
            WriteError::NoJob => 17,
            WriteError::NegativeTolerance => 5,
            WriteError::NoSteps => 6,
            WriteError::LimitTooLarge => 7,
            WriteError::ZeroFirstStep => 8,
            WriteError::SliceShort => 25,
        }
    }
}

// The job goes to the first bytes of `out`, and the answer says how many they are. What lies after it stays, and a refusal changes
// nothing.
pub fn write(f: Form, y0: &[u64], a: &[u64], out: &mut [u8]) -> Result<usize, WriteError>
    ensures { (writing_of result, out.new) ≡ write_of f y0.now a.now out.old }
{
    let long = judged(f, y0.len(), a.len())?;
    if out.len() < long {
        return Err(WriteError::SliceShort);
    }
    pack(f, y0, a, out);
    Ok(long)
}

// What a form comes to beside y0 of `places` words and A of `cells`, where the slice is long enough: how many bytes the job has, or why
// it is none.
fn judged(f: Form, places: usize, cells: usize) -> Result<usize, WriteError>
    ensures { writing_of result ≡ judged_of f places cells }
{
    if MAX_N < f.n {
        return Err(WriteError::TooManyComponents);
    }
    if !fits(f, places, cells) {
        return Err(WriteError::NoJob);
    }
    begun(f, packed::length_for(f.n))
}

// Whether y0 and A have their lengths, each limit fits its field, and a first_step that is not used has only zero bits.
fn fits(f: Form, places: usize, cells: usize) -> bool
    requires { f.n ≤ max_n }
    ensures { result ≡ fits_of f places cells }
{
    places == f.n
        && cells == f.n * f.n
        && f.max_steps < 0x10_0000
        && f.newton_maxiter < 0x80
        && (!f.automatic || f.first_step == 0)
}

// The beginning's own refusals of the job that a form means, and otherwise its length. With no component a beginning ends at once, and
// checks none of them.
fn begun(f: Form, long: usize) -> Result<usize, WriteError>
    ensures { writing_of result ≡ begun_of long (begins_of (job_of f)) }
{
    if f.n == 0 {
        return Ok(long);
    }
    if text::double(f.rtol) < 0.0 || text::double(f.atol) < 0.0 {
        return Err(WriteError::NegativeTolerance);
    }
    if f.max_steps == 0 {
        return Err(WriteError::NoSteps);
    }
    if 1_000_000 < f.max_steps || 64 < f.newton_maxiter {
        return Err(WriteError::LimitTooLarge);
    }
    if !f.automatic && text::double(f.first_step) == 0.0 {
        return Err(WriteError::ZeroFirstStep);
    }
    Ok(long)
}

// The head, the five words behind it, y0 and A, one after another.
fn pack(f: Form, y0: &[u64], a: &[u64], out: &mut [u8])
    requires { (f.n ≤ max_n) × ((fits_of f (length y0.now) (length a.now) ≡ true) × (length_for f.n ≤ length out.old)) }
    ensures { out.new ≡ packed_of f y0.now a.now ++ drop (length_for f.n) out.old }
{
    let mut page = Page::new(out);
    page.put_word(HEAD, head_for(f));
    put_words(&mut page, &[f.x0, f.xend, f.first_step, f.rtol, f.atol]);
    put_words(&mut page, y0);
    put_words(&mut page, a);
}

// The head's fields, each behind those before it, and six zero bits.
fn head_for(f: Form) -> u64
    requires { (f.n ≤ max_n) × ((f.max_steps < 2 ^ 20) × (f.newton_maxiter < 2 ^ 7)) }
    ensures { result ≡ head_for f }
{
    let limits = (f.n as u64 * 0x10_0000 + f.max_steps as u64) * 0x80 + f.newton_maxiter as u64;
    (limits * 2 + u64::from(f.automatic)) * 0x40
}

// Eight bytes for each word.
fn put_words(page: &mut Page, ws: &[u64])
    requires { room_for (8 * length ws.now) page.old.place (length page.old.bytes.now) ≡ true }
    ensures put { seen page.new ≡ puts (joined ws.now) (seen page.old) }
    ensures same { SamePage page.old page.new }
{
    for w in ws {
        page.put_word(8, *w);
    }
}
