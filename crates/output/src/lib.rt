// A page of text to a writer, or bytes that are lent: written out where the next line may have no room, and at the end.
// Afterwards the page is begun anew. A full page says that a write failed: from then on nothing is written.
//
// What is said is where the next text goes, and of a writer whose bytes are known what it holds then. Of a stream no contract tells that.
#![tactic(auto)]

pub mod bytes;

ghost use Rattle.std.specs.Prelude.{◌≡◌, length};
ghost use Rattle.text.specs.Page.{SamePage};
ghost use Rattle.output.specs.Output.{Flushed, MadeRoomy, KeepsSaid};

use std::io::Write;
use text::Page;

// Writes out what stands before the place. The page is full where that lies beyond it, or the write failed.
pub fn flush<W: Write>(to: &mut W, page: &mut Page)
    ensures place { Flushed (length page.old.bytes.now) page.old.place page.new.place }
    ensures bytes { page.new.bytes.now ≡ page.old.bytes.now }
    ensures said { KeepsSaid (W.contents to.old) (W.contents to.new) page.old.bytes.now page.old.place page.new.place }
    ensures same { SamePage page.old page.new }
{
    match page.written() {
        Some(text) if to.write_all(text).is_ok() => page.clear(),
        _ => page.close(),
    }
}

// Before a line of at most `line` bytes: the page as it is where they have room, otherwise flushed.
pub fn roomy<W: Write>(to: &mut W, page: &mut Page, line: usize)
    ensures place { MadeRoomy (length page.old.bytes.now) line page.old.place page.new.place }
    ensures bytes { page.new.bytes.now ≡ page.old.bytes.now }
    ensures said { KeepsSaid (W.contents to.old) (W.contents to.new) page.old.bytes.now page.old.place page.new.place }
    ensures same { SamePage page.old page.new }
{
    if !page.has_room(line) {
        flush(to, page);
    }
}
