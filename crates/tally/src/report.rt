// A tally with notes on the first cases that do not agree.
ghost use Rattle.std.specs.Prelude.{◌≡◌, ◌+◌, ◌-◌, ◌^◌, ◌≤◌, min, ◌&&◌, [], ◌∷◌, ◌++◌, is_ok, if◌then◌else◌, vec_len, nat_lt};

use crate::Tally;
use std::alloc::{AllocError, Global};

/// How many notes are kept.
const NOTES: usize = 3;

#[derive(Drop)]
pub struct Report {
    pub tally: Tally,
    pub notes: Vec<String>,
}

impl Report {
    /// Of no cases.
    pub fn new(heap: Global) -> Report
        ensures agree { result.tally.agree ≡ 0 }
        ensures all { result.tally.all ≡ 0 }
        ensures notes { result.notes.items ≡ [] }
    {
        Report {
            tally: Tally::default(),
            notes: Vec::new(heap),
        }
    }

    /// Counts a case that does not agree, and keeps the note if it is among the first.
    pub fn differs(&mut self, note: String) -> Result<(), AllocError>
        ensures agree { self.new.tally.agree ≡ min self.old.tally.agree (2 ^ 64 - 1) }
        ensures all { self.new.tally.all ≡ min (self.old.tally.all + 1) (2 ^ 64 - 1) }
        // A report's fields are public, so an invariant would ask more of who makes one.
        ensures few { vec_len self.old.notes ≤ 3 → vec_len self.new.notes ≤ 3 }
        ensures notes { self.new.notes.items ≡ (if is_ok result && nat_lt (vec_len self.old.notes) 3 then self.old.notes.items ++ note ∷ [] else self.old.notes.items) }
    {
        self.tally.count(false);
        if self.notes.len() < NOTES {
            self.notes.push(note)?;
        }
        Ok(())
    }
}
