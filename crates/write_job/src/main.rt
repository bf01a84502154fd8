// Writes packed jobs from words, for the writer to be put to the test: 64-bit words on standard input, each most significant byte first,
// and any number of cases, one after another.
//
//   0, room, n, max_steps, newton_maxiter, automatic, x0, xend, first_step, rtol, atol, count of y0, count of A, y0 .., A ..
//       a form, which is written into a slice of `room` bytes
//   1, room, length, and as many bytes
//       a file, which is read by its bits, and what was read is written
//
// Each prints the line `W` with the number of bytes written, or `R` with the number of the refusal, and then the slice as it stands, whose
// bytes were A5 before. A stream that is no row of cases, or has more than there is room for, ends in the line `X`.
#![tactic(auto)]

use job::{CELLS, Form, ReadError, WriteError};
use matrix::MAX_N;
use std::fmt::Write;
use text::Page;

// The most words of y0 and of A, and the most bytes of a slice and of a file.
const PLACES: usize = 64;

const MATRIX: usize = 1100;

const ROOM: usize = 8 * MATRIX;

// What each byte of the slice holds before it is lent.
const BLANK: u8 = 0xA5;

// What a case is read into, and the slice that is written into.
#[derive(Drop)]
struct Buffers {
    bytes: [u8; ROOM],
    y0: [u64; PLACES],
    a: [u64; MATRIX],
    out: [u8; ROOM],
}

#[derive(Clone, Copy)]
enum Kind {
    Form,
    File,
}

// Why no other case follows.
#[derive(Clone, Copy)]
enum Stop {
    AtEnd,
    // The stream is no row of cases, or has more than there is room for.
    Unfit,
    // Standard output takes no more.
    NotWritten,
}

// Why a case is not written.
#[derive(Clone, Copy)]
enum Refusal {
    Read(ReadError),
    Write(WriteError),
}

impl TryFrom<u64> for Kind {
    type Error = Stop;

    fn try_from(word: u64) -> Result<Kind, Stop> {
        match word {
            0 => Ok(Kind::Form),
            1 => Ok(Kind::File),
            _ => Err(Stop::Unfit),
        }
    }
}

impl From<ReadError> for Refusal {
    fn from(why: ReadError) -> Refusal {
        Refusal::Read(why)
    }
}

impl From<WriteError> for Refusal {
    fn from(why: WriteError) -> Refusal {
        Refusal::Write(why)
    }
}

impl Refusal {
    fn number(&self) -> u64 {
        match self {
            Refusal::Read(why) => why.number(),
            Refusal::Write(why) => why.number(),
        }
    }
}

// A proved loop has to end, and nothing says that a stream does: it counts up to a number that no stream uses up.
fn main(rt: HostRuntime) {
    let mut buffers = Buffers {
        bytes: [0u8; ROOM],
        y0: [0u64; PLACES],
        a: [0u64; MATRIX],
        out: [0u8; ROOM],
    };
    for _ in 0..u64::MAX {
        match case(&rt, &mut buffers) {
            Ok(()) => {}
            Err(stop) => {
                told_why(&rt, stop);
                break;
            }
        }
    }
}

fn told_why(rt: &HostRuntime, stop: Stop) {
    match stop {
        Stop::AtEnd => {}
        Stop::Unfit => {
            let _ = rt.print("X\n");
        }
        Stop::NotWritten => {
            let _ = rt.eprintln("write_job: standard output was not written");
        }
    }
}

// One case.
fn case(rt: &HostRuntime, b: &mut Buffers) -> Result<(), Stop> {
    let mut lead = [0u8; 16];
    match input::full(&mut rt.stdin(), &mut lead) {
        0 => return Err(Stop::AtEnd),
        16 => {}
        _ => return Err(Stop::Unfit),
    }
    let room = word(&lead, 8)? as usize;
    match Kind::try_from(word(&lead, 0)?)? {
        Kind::Form => form(rt, b, room),
        Kind::File => file(rt, b, room),
    }
}

// A form with y0 and A, which all come from the input.
fn form(rt: &HostRuntime, b: &mut Buffers, room: usize) -> Result<(), Stop> {
    let out = b.out.get_mut(..room).ok_or(Stop::Unfit)?;
    let head = fetched(rt, &mut b.bytes, 88)?;
    let f = form_of(head)?;
    let places = word(head, 72)? as usize;
    let cells = word(head, 80)? as usize;
    let y0 = b.y0.get_mut(..places).ok_or(Stop::Unfit)?;
    let a = b.a.get_mut(..cells).ok_or(Stop::Unfit)?;
    loaded(rt, &mut b.bytes, y0)?;
    loaded(rt, &mut b.bytes, a)?;
    told(rt, written(f, y0, a, out), out)
}

fn form_of(s: &[u8]) -> Result<Form, Stop> {
    Ok(Form {
        n: word(s, 0)? as usize,
        max_steps: word(s, 8)? as usize,
        newton_maxiter: word(s, 16)? as usize,
        automatic: flag(word(s, 24)?)?,
        x0: word(s, 32)?,
        xend: word(s, 40)?,
        first_step: word(s, 48)?,
        rtol: word(s, 56)?,
        atol: word(s, 64)?,
    })
}

fn flag(word: u64) -> Result<bool, Stop> {
    match word {
        0 => Ok(false),
        1 => Ok(true),
        _ => Err(Stop::Unfit),
    }
}

// A file: it is read by its bits, and what was read is written.
fn file(rt: &HostRuntime, b: &mut Buffers, room: usize) -> Result<(), Stop> {
    let out = b.out.get_mut(..room).ok_or(Stop::Unfit)?;
    let mut lead = [0u8; 8];
    let length = word(fetched(rt, &mut lead, 8)?, 0)? as usize;
    let file = fetched(rt, &mut b.bytes, length)?;
    told(rt, rewritten(file, out), out)
}

fn rewritten(s: &[u8], out: &mut [u8]) -> Result<usize, Refusal> {
    let mut y0 = [0u64; MAX_N];
    let mut a = [0u64; CELLS];
    out.fill(BLANK);
    let f = job::read_form(s, &mut y0, &mut a)?;
    written(f, &y0[..f.n], &a[..f.n * f.n], out)
}

fn written(f: Form, y0: &[u64], a: &[u64], out: &mut [u8]) -> Result<usize, Refusal> {
    out.fill(BLANK);
    Ok(job::write(f, y0, a, out)?)
}

// The next `length` bytes of the input, which now stand at the beginning of `bytes`.
fn fetched<'a>(rt: &HostRuntime, bytes: &'a mut [u8], length: usize) -> Result<&'a [u8], Stop> {
    let front = bytes.get_mut(..length).ok_or(Stop::Unfit)?;
    if input::full(&mut rt.stdin(), front) < length {
        return Err(Stop::Unfit);
    }
    Ok(front)
}

// The next words of the input now stand in `to`, as many as it has places.
fn loaded(rt: &HostRuntime, bytes: &mut [u8], to: &mut [u64]) -> Result<(), Stop> {
    if to.len() > bytes.len() / 8 {
        return Err(Stop::Unfit);
    }
    let words = fetched(rt, bytes, 8 * to.len())?;
    for (i, w) in to.iter_mut().enumerate() {
        *w = word(words, 8 * i)?;
    }
    Ok(())
}

fn word(s: &[u8], at: usize) -> Result<u64, Stop> {
    text::word_at(s, at).ok_or(Stop::Unfit)
}

// The answer's line, and the slice.
fn told(rt: &HostRuntime, said: Result<usize, Refusal>, out: &[u8]) -> Result<(), Stop> {
    let mut line = [0u8; 32];
    let mut page = Page::new(&mut line);
    let put = match said {
        Ok(count) => writeln!(page, "W {count}"),
        Err(why) => writeln!(page, "R {}", why.number()),
    };
    let mut to = rt.stdout();
    output::flush(&mut to, &mut page);
    if put.is_err() || page.is_full() || to.write_all(out).is_err() {
        return Err(Stop::NotWritten);
    }
    Ok(())
}
