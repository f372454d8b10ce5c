// Sums over a log.
ghost use Rattle.std.specs.Prelude.{◌≡◌, ◌+◌, ◌-◌, ◌^◌, min, vec_len};

use player::entry::Entry;
use std::fmt;

// What a seat counts is not done, so steps are the visits.
/// The steps and marks of all calls, and the marks that are seen after them.
#[derive(Clone, Copy, Default)]
pub(crate) struct Totals {
    pub steps: usize,
    pub marks: usize,
    pub seen: usize,
}

impl Totals {
    /// Counts one entry more. Sums stop at the largest number.
    pub(crate) fn add(&mut self, entry: &Entry)
        ensures steps { self.new.steps ≡ min (self.old.steps + vec_len entry.now.visits) (2 ^ 64 - 1) }
        ensures marks { self.new.marks ≡ min (self.old.marks + (entry.now.marks - self.old.seen)) (2 ^ 64 - 1) }
        ensures seen { self.new.seen ≡ entry.now.marks }
    {
        let added = entry.marks.saturating_sub(self.seen);
        self.steps = self.steps.saturating_add(entry.visits.len());
        self.marks = self.marks.saturating_add(added);
        self.seen = entry.marks;
    }
}

impl fmt::Display for Totals {
    fn fmt<W: fmt::Write>(&self, f: &mut fmt::Formatter<W>) -> fmt::Result {
        let Totals { steps, marks, seen } = *self;
        write!(f, "totals: steps {steps}, marks {marks}, marks seen {seen}")
    }
}
