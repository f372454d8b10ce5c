// How many agree, of how many.
#![tactic(auto)]

ghost use Rattle.std.specs.Prelude.{◌≡◌, ◌+◌, ◌-◌, ◌^◌, min, ◌++◌, if◌then◌else◌, Some, codes, decimal, ◌==◌};

use std::fmt;
use std::ops::AddAssign;

pub mod report;

/// How many agree, of how many in all. Both numbers stop at the largest that there is.
#[derive(Clone, Copy, Default)]
pub struct Tally {
    pub agree: usize,
    pub all: usize,
}

impl Tally {
    pub fn new() -> Tally
        ensures agree { result.agree ≡ 0 }
        ensures all { result.all ≡ 0 }
    {
        Tally::default()
    }

    /// Counts one more, that agrees or not.
    pub fn count(&mut self, agrees: bool)
        ensures agree { self.new.agree ≡ min (self.old.agree + (if agrees then 1 else 0)) (2 ^ 64 - 1) }
        ensures all { self.new.all ≡ min (self.old.all + 1) (2 ^ 64 - 1) }
    {
        *self += Tally {
            agree: usize::from(agrees),
            all: 1,
        };
    }

    /// Whether all agree.
    pub fn whole(self) -> bool
        ensures { result ≡ (self.agree == self.all) }
    {
        self.agree == self.all
    }
}

/// Counts all that another tally has counted.
impl AddAssign for Tally {
    ghost add_assign_gives = { λ before other after. (after.agree ≡ min (before.agree + other.agree) (2 ^ 64 - 1)) × (after.all ≡ min (before.all + other.all) (2 ^ 64 - 1)) };

    fn add_assign(&mut self, other: Tally) {
        self.agree = self.agree.saturating_add(other.agree);
        self.all = self.all.saturating_add(other.all);
    }
}

impl fmt::Display for Tally {
    ghost output = { λ t. Some (decimal t.agree ++ (codes " of " ++ decimal t.all)) };

    fn fmt<W: fmt::Write>(&self, f: &mut fmt::Formatter<W>) -> fmt::Result {
        let agree = self.agree;
        let all = self.all;
        write!(f, "{agree} of {all}")
    }
}
