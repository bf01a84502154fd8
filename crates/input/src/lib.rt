// Bytes from a reader, into a slice that is lent. A read that fails, as one that a signal interrupts, is taken for the input's end.
#![tactic(auto)]

ghost use Rattle.std.specs.Prelude.{◌≤◌, length, take};
ghost use Rattle.std.specs.Io.KnownBytes.{Consumes};

use std::io::Read;

// One read, of what is there of the input or comes next: how many bytes of it now stand in front. At the end there are none.
pub fn some<R: Read>(from: &mut R, buf: &mut [u8]) -> usize
    ensures within { result ≤ length buf.new }
    ensures next { Consumes (R.remaining from.old) (R.remaining from.new) (take result buf.new) }
{
    from.read(buf).unwrap_or(0)
}

// Reads until the slice is full or the input ends: how many bytes of it now stand in front.
// Stays a while loop: a turn goes on by as many bytes as its read gave, which no range or iterator yields; `read_exact` says little after an error.
pub fn full<R: Read>(from: &mut R, buf: &mut [u8]) -> usize
    ensures within { result ≤ length buf.new }
    ensures next { Consumes (R.remaining from.old) (R.remaining from.new) (take result buf.new) }
{
    let mut done = 0;
    while done < buf.len() {
        let more = some(from, &mut buf[done..]);
        if more == 0 {
            break;
        }
        done += more;
    }
    done
}
