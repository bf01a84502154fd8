// What was counted, and its lines: how often each forgery was tried, how often answered rightly, how many slices changed.
ghost use Rattle.std.specs.Prelude.{◌≡◌, length};
ghost use Rattle.edges.specs.Forgeries.{forgery_count};

use crate::forge::{Forgery, Side};
use rules::types::Awaited;
use std::fmt;
use std::fmt::Write;
use text::Page;

// How often states were tried, how often answered rightly, and how many slices changed.
#[derive(Clone, Copy, Default)]
pub(crate) struct Count {
    tried: u64,
    right: u64,
    changed: u64,
}

impl Count {
    fn note(&mut self, right: bool, changed: u64) {
        self.add(Count {
            tried: 1,
            right: u64::from(right),
            changed,
        });
    }

    fn add(&mut self, more: Count) {
        self.tried = self.tried.wrapping_add(more.tried);
        self.right = self.right.wrapping_add(more.right);
        self.changed = self.changed.wrapping_add(more.changed);
    }
}

// `7700 of 7700`: of so many that were tried, so many were answered rightly.
impl fmt::Display for Count {
    fn fmt<W: fmt::Write>(&self, f: &mut fmt::Formatter<W>) -> fmt::Result {
        let right = self.right;
        let tried = self.tried;
        write!(f, "{right} of {tried}")
    }
}

// A forgery's states beyond the bound, and those at it.
#[derive(Clone, Copy, Default)]
pub(crate) struct Sides {
    damaged: Count,
    whole: Count,
}

impl Sides {
    pub(crate) fn note(&mut self, side: Side, right: bool, changed: u64) {
        match side {
            Side::Beyond => self.damaged.note(right, changed),
            Side::At => self.whole.note(right, changed),
        }
    }

    fn add(&mut self, more: &Sides) {
        self.damaged.add(more.damaged);
        self.whole.add(more.whole);
    }
}

// `damaged 7700 of 7700, whole 7700 of 7700, slices changed 0`.
impl fmt::Display for Sides {
    fn fmt<W: fmt::Write>(&self, f: &mut fmt::Formatter<W>) -> fmt::Result {
        let damaged = self.damaged;
        let whole = self.whole;
        let changed = damaged.changed.wrapping_add(whole.changed);
        write!(
            f,
            "damaged {damaged}, whole {whole}, slices changed {changed}"
        )
    }
}

const FORGERIES: usize = Forgery::ALL.len();

// The places at which a run waits.
const PLACES: usize = Awaited::Ended as usize + 1;

// For each forgery its two sides; and for each place at which a run waits how often forgeries were tried there.
#[derive(Drop)]
pub(crate) struct Tally {
    pub forgeries: [Sides; FORGERIES],
    pub places: [u64; PLACES],
}

impl Tally {
    pub(crate) fn new() -> Tally
        ensures { length result.forgeries ≡ forgery_count }
    {
        Tally {
            forgeries: [Sides::default(); FORGERIES],
            places: [0; PLACES],
        }
    }

    // That the forgeries were tried where a run waits.
    pub(crate) fn note_place(&mut self, awaited: Awaited) {
        if let Some(tried) = self.places.get_mut(awaited as usize) {
            *tried = tried.wrapping_add(1);
        }
    }

    // How often forgeries were tried at each place, in the order in which `Awaited` lists them.
    pub(crate) fn show_places(&self, page: &mut Page) -> fmt::Result {
        write!(page, "answers by the place awaited:")?;
        for tried in self.places {
            write!(page, " {tried}")?;
        }
        writeln!(page)
    }

    // A line for each forgery, and one for all of them.
    pub(crate) fn show_forgeries(&self, page: &mut Page) -> fmt::Result {
        let mut all = Sides::default();
        for (forgery, sides) in Forgery::ALL.iter().zip(self.forgeries.iter()) {
            writeln!(page, "{forgery}: {sides}")?;
            all.add(sides);
        }
        writeln!(page, "in all: {all}")
    }
}
