// Cases counted into a report, one by one: each agrees or differs.
#![tactic(auto)]

ghost use Rattle.std.specs.Prelude.{◌≡◌, ℕ, ◌+◌, ◌-◌, ◌^◌, min, ◌&&◌, [], ◌∷◌, ◌++◌, IfOk, is_ok, if◌then◌else◌, vec_len, nat_lt};
ghost use Rattle.counted.specs.Counted.{Counted};

use std::alloc::{AllocError, Global};
use tally::report::Report;

/// A report of no cases.
pub fn none(heap: Global) -> Report
    ensures { Counted 0 result }
{
    Report::new(heap)
}

/// Counts a case that agrees.
pub fn agrees(report: &mut Report)
    ensures agree { report.new.tally.agree ≡ min (report.old.tally.agree + 1) (2 ^ 64 - 1) }
    ensures all { report.new.tally.all ≡ min (report.old.tally.all + 1) (2 ^ 64 - 1) }
    ensures notes { report.new.notes ≡ report.old.notes }
    ensures counted { (n : ℕ) → Counted n report.old → Counted (n + 1) report.new }
{
    report.tally.count(true);
}

/// Counts a case that differs, and keeps the note if it is among the first three.
pub fn differs(report: &mut Report, note: String) -> Result<(), AllocError>
    ensures agree { report.new.tally.agree ≡ min report.old.tally.agree (2 ^ 64 - 1) }
    ensures all { report.new.tally.all ≡ min (report.old.tally.all + 1) (2 ^ 64 - 1) }
    ensures notes { report.new.notes.items ≡ (if is_ok result && nat_lt (vec_len report.old.notes) 3 then report.old.notes.items ++ note ∷ [] else report.old.notes.items) }
    ensures counted { (n : ℕ) → Counted n report.old → IfOk result (λ done. Counted (n + 1) report.new) }
{
    report.differs(note)
}
