// Bytes that are lent to be read alone, as a fixed text, and the place behind what is to be written: `flush` and `roomy` of them, as of a page.
// What is said is which place comes back. None says that a write failed, now or before, or that there was no such part of them; of None
// nothing is written.
ghost use Rattle.std.specs.Prelude.{length};
ghost use Rattle.output.specs.Output.{Flushed, MadeRoomy, KeepsSaid};

use std::io::Write;

// Writes out what stands before the place.
pub fn flush<W: Write>(to: &mut W, out: &[u8], place: Option<usize>) -> Option<usize>
    ensures place { Flushed (length out.now) place result }
    ensures said { KeepsSaid (W.contents to.old) (W.contents to.new) out.now place result }
{
    match place {
        Some(at) => {
            if at > out.len() {
                return None;
            }
            if to.write_all(&out[..at]).is_ok() {
                return Some(0);
            }
            None
        }
        None => None,
    }
}

// Before a line of at most `line` bytes: the place as it is where they have room, otherwise flushed.
pub fn roomy<W: Write>(to: &mut W, out: &[u8], place: Option<usize>, line: usize) -> Option<usize>
    ensures place { MadeRoomy (length out.now) line place result }
    ensures said { KeepsSaid (W.contents to.old) (W.contents to.new) out.now place result }
{
    match place {
        Some(at) => {
            if at > out.len() {
                return None;
            }
            if out.len() - at < line {
                return flush(to, out, place);
            }
            place
        }
        None => None,
    }
}
