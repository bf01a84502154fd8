// Words from standard input, by way of a buffer that is lent.
// The buffer takes what is there of the input, and of a word that is there in part the rest, which is waited for. So no word lies across
// its end, and whoever sends words and then listens is answered.
ghost use Rattle.std.specs.Prelude.{◌≤◌, IfSome};

use std::io::Stdin;

// Where the words come from, the place of the next one in the buffer, and where what was read ends.
// Stays a buffer with its places, and no std::io::BufReader: that one's buffer is on the heap, and memory is fixed here.
#[derive(Drop)]
pub(crate) struct Words<'a> {
    from: Stdin,
    buffer: &'a mut [u8],
    at: usize,
    end: usize,
}

impl<'a> Words<'a> {
    // Nothing is read yet.
    pub(crate) fn new(from: Stdin, buffer: &'a mut [u8]) -> Words<'a> {
        Words {
            from,
            buffer,
            at: 0,
            end: 0,
        }
    }

    // Whether all that was read is taken.
    pub(crate) fn are_used_up(&self) -> bool {
        self.end <= self.at
    }

    // Where all that was read is taken, reads on. At the input's end nothing is left afterwards, or a part of a word.
    pub(crate) fn read_on(&mut self) {
        if self.are_used_up() {
            self.end = input::some(&mut self.from, self.buffer);
            self.at = 0;
            for _ in 0..7 {
                self.read_one_more();
            }
        }
    }

    // One byte more, unless whole words stand there already. A read that gives nothing is no end of the input here: the next may give the rest
    // of the word, as where a signal interrupts one, or an end is typed at a terminal.
    fn read_one_more(&mut self) {
        let end = self.end;
        if end % 8 != 0 && end < self.buffer.len() {
            self.end = end + input::full(&mut self.from, &mut self.buffer[end..end + 1]);
        }
    }

    // The next word, or None where fewer than eight bytes are left.
    pub(crate) fn word(&mut self) -> Option<u64> {
        self.read_on();
        let at = self.at;
        if self.end.saturating_sub(at) < 8 {
            return None;
        }
        let word = text::word_at(self.buffer, at)?;
        self.at = at + 8;
        Some(word)
    }

    // The next word as a whole number, as large as it may be.
    pub(crate) fn number(&mut self) -> Option<usize> {
        Some(self.word()? as usize)
    }

    // The next word as a count of at most `most`, or None where it is larger.
    pub(crate) fn count(&mut self, most: usize) -> Option<usize>
        ensures { IfSome result (λ n. n ≤ most) }
    {
        let n = self.number()?;
        if n <= most { Some(n) } else { None }
    }

    // The next word as the bits of a double.
    pub(crate) fn double(&mut self) -> Option<f64> {
        Some(text::double(self.word()?))
    }

    // A word for each place of `to`, as `of` makes of it what belongs there.
    pub(crate) fn fill<T: Copy, F: Fn(u64) -> T>(&mut self, to: &mut [T], of: F) -> Option<()>
        requires { F.IsAlwaysCallable of }
    {
        for place in to.iter_mut() {
            *place = of(self.word()?);
        }
        Some(())
    }

    pub(crate) fn doubles(&mut self, to: &mut [f64]) -> Option<()> {
        self.fill(to, |word| text::double(word))
    }

    pub(crate) fn numbers(&mut self, to: &mut [usize]) -> Option<()> {
        self.fill(to, |word| word as usize)
    }
}
