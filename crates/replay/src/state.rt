// Where a replay stands: in the words that come in, and in the text that goes out.
use crate::fields::LINE;
use crate::words::Words;
use std::io::{Stdin, Stdout};
use text::Page;

#[derive(Drop)]
pub(crate) struct Replay<'a> {
    pub words: Words<'a>,
    pub page: Page<'a>,
    to: Stdout,
}

impl<'a> Replay<'a> {
    pub(crate) fn new(from: Stdin, to: Stdout, inp: &'a mut [u8], out: &'a mut [u8]) -> Replay<'a> {
        Replay {
            words: Words::new(from, inp),
            page: Page::new(out),
            to,
        }
    }

    // Whether another case begins: words are at hand, and what went out was written.
    pub(crate) fn goes_on(&self) -> bool {
        !self.words.are_used_up() && !self.page.is_full()
    }

    // Room for a line.
    pub(crate) fn make_room(&mut self) {
        output::roomy(&mut self.to, &mut self.page, LINE);
    }

    // Writes out what was said so far.
    pub(crate) fn flush(&mut self) {
        output::flush(&mut self.to, &mut self.page);
    }

    // Where nothing more of the input is at hand, what was said so far is written out: whoever is to reply has then seen it.
    pub(crate) fn flush_before_waiting(&mut self) {
        if self.words.are_used_up() {
            self.flush();
        }
    }
}
