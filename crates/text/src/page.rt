// A page: a lent slice that text is written into, and the place where its next text goes. Text that has no room is not begun,
// and from then on nothing is written: what is on the page is never garbled.
ghost use Rattle.std.specs.Prelude.{◌≡◌, [], ◌∷◌, ◌+◌, ◌^◌, ◌≤◌, ◌<◌, length, not, false, Some, None, IfSome, IfNone, MatchOption};
ghost use Rattle.std.specs.Result.{is_err, IsOk};
ghost use Rattle.text.specs.Digits.{places_of, decimal, hexadecimal};
ghost use Rattle.text.specs.Words.{bytes_of};
ghost use Rattle.text.specs.Page.{puts, room_for, seen, stands_of, SamePage, IsWritten};

use crate::bits;
use crate::notation::{Bytes, Decimal, Hexadecimal, Notation, spell};
use std::fmt;

#[derive(Drop)]
pub struct Page<'a> {
    bytes: &'a mut [u8],
    place: Option<usize>,
}

// Whether the next text has a place: false on a full page.
pub fn stands(place: Option<usize>) -> bool
    ensures { result ≡ stands_of place }
{
    place.is_some()
}

impl<'a> Page<'a> {
    // Text goes to the beginning.
    pub fn new(bytes: &'a mut [u8]) -> Page<'a>
        ensures seen { seen result ≡ (Some 0, bytes.old) }
        ensures same { result.bytes.ghost_name ≡ bytes.entry.ghost_name }
    {
        Page::at(bytes, 0)
    }

    // Text goes on from a place, wherever that is.
    pub fn at(bytes: &'a mut [u8], place: usize) -> Page<'a>
        ensures seen { seen result ≡ (Some place, bytes.old) }
        ensures same { result.bytes.ghost_name ≡ bytes.entry.ghost_name }
    {
        Page {
            bytes,
            place: Some(place),
        }
    }

    // Where the next text goes: after the last one. A full page has no such place.
    pub fn place(&self) -> Option<usize>
        ensures { result ≡ self.now.place }
    {
        self.place
    }

    // Whether a text had no room.
    pub fn is_full(&self) -> bool
        ensures { result ≡ not (stands_of self.now.place) }
    {
        !stands(self.place)
    }

    // Whether k bytes more have room; no sum can wrap here, whatever the place is. No page is as long as the greatest number:
    // nothing so long has room.
    pub fn has_room(&self, k: usize) -> bool
        ensures room { result ≡ room_for k self.now.place (length self.now.bytes.now) }
        ensures short { length self.now.bytes.now < 2 ^ 63 }
    {
        match self.place {
            Some(at) => at <= self.bytes.len() && k <= self.bytes.len() - at,
            None => false,
        }
    }

    // What stands before the place; none on a full page, or where the place lies beyond.
    pub fn written(&self) -> Option<&[u8]>
        ensures { MatchOption result (room_for 0 self.now.place (length self.now.bytes.now) ≡ false) (λ text. IsWritten (seen self.now) text.now) }
    {
        self.bytes.get(..self.place?)
    }

    // Begins anew: text goes to the beginning.
    pub fn clear(&mut self)
        ensures clear { seen self.new ≡ (Some 0, self.old.bytes.now) }
        ensures same { SamePage self.old self.new }
    {
        self.place = Some(0);
    }

    // Takes no more text.
    pub fn close(&mut self)
        ensures close { seen self.new ≡ (None, self.old.bytes.now) }
        ensures same { SamePage self.old self.new }
    {
        self.place = None;
    }

    // One byte: a letter, a space, a line's end.
    pub fn put_byte(&mut self, b: u8)
        ensures put { seen self.new ≡ puts (b ∷ []) (seen self.old) }
        ensures same { SamePage self.old self.new }
    {
        if let Some(at) = self.reserve(1) {
            self.bytes[at] = b;
        }
    }

    // Bytes: words as they stand.
    pub fn put_bytes(&mut self, s: &[u8])
        ensures put { seen self.new ≡ puts s.now (seen self.old) }
        ensures same { SamePage self.old self.new }
    {
        if let Some(at) = self.reserve(s.len()) {
            self.bytes[at..at + s.len()].copy_from_slice(s);
        }
    }

    // A count, in decimal: no zero in front.
    pub fn put_count(&mut self, n: u64)
        ensures put { seen self.new ≡ puts (decimal n) (seen self.old) }
        ensures same { SamePage self.old self.new }
    {
        self.put_number::<Decimal>(places(n), n);
    }

    // A double, as the 16 upper-case hexadecimal digits of its pattern.
    pub fn put_double(&mut self, x: f64)
        ensures put { seen self.new ≡ puts (hexadecimal x) (seen self.old) }
        ensures same { SamePage self.old self.new }
    {
        self.put_number::<Hexadecimal>(16, bits(x));
    }

    // The last k bytes of w: eight are the whole of it.
    pub fn put_word(&mut self, k: usize, w: u64)
        ensures put { seen self.new ≡ puts (bytes_of k w) (seen self.old) }
        ensures same { SamePage self.old self.new }
    {
        self.put_number::<Bytes>(k, w);
    }

    // The last k digits of n.
    fn put_number<N: Notation>(&mut self, k: usize, n: u64)
        ensures put { seen self.new ≡ puts (N.digits k n) (seen self.old) }
        ensures same { SamePage self.old self.new }
    {
        if let Some(at) = self.reserve(k) {
            spell::<N>(&mut self.bytes[at..at + k], n);
        }
    }

    // Takes the next k bytes: the place of the first. A page that has no room for them is full.
    fn reserve(&mut self, k: usize) -> Option<usize>
        ensures some { IfSome result (λ at. (self.old.place ≡ Some at) × (at + k ≤ length self.old.bytes.now) × (self.new.place ≡ Some (at + k))) }
        ensures none { IfNone result ((room_for k self.old.place (length self.old.bytes.now) ≡ false) × (self.new.place ≡ None)) }
        ensures bytes { self.new.bytes ≡ self.old.bytes }
    {
        let at = self.place?;
        if !self.has_room(k) {
            self.place = None;
            return None;
        }
        self.place = Some(at + k);
        Some(at)
    }
}

// Text of the standard library's making, as `write!` puts it. That it did not fail says that the page has it.
impl fmt::Write for Page<'_> {
    ghost write_str_gives = { λ old s new. (seen new ≡ puts s (seen old)) × SamePage old new };

    fn write_str(&mut self, s: &str) -> fmt::Result
        ensures ok { IsOk result → (seen self.new ≡ puts s.now (seen self.old)) × SamePage self.old self.new }
        ensures put { seen self.new ≡ puts s.now (seen self.old) }
        ensures same { SamePage self.old self.new }
        ensures full { is_err result ≡ not (stands_of self.new.place) }
    {
        self.put_bytes(s.as_bytes());
        if self.is_full() {
            return Err(fmt::Error);
        }
        Ok(())
    }
}

// How many decimal digits n has: one for 0. Who puts a whole line asks, to know that it has room.
pub fn places(n: u64) -> usize
    ensures { result ≡ places_of n }
{
    n.max(1).ilog10() as usize + 1
}
