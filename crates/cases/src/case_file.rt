// A case file: its lines are cases, each run by the way of its kind.
ghost use Rattle.std.specs.Prelude.{◌≡◌, ℕ, ◌+◌, IfOk};
ghost use Rattle.counted.specs.Counted.{Counted};
ghost use Rattle.cases.specs.Counts.{case_count, cases_in};

use crate::case::Case;
use crate::case_error::CaseError;
use counted::{agrees, differs};
use std::alloc::{AllocError, Global};
use tally::report::Report;
use trials::room::Room;

// The heap goes beside the room: most ways of a case need no room.
/// Runs all cases of a text, one to a line. Empty lines are no cases, and a line that is none otherwise
/// counts as one that differs. At most three notes are kept.
pub fn run(heap: Global, room: &mut Room, text: &str) -> Result<Report, AllocError>
    ensures { IfOk result (λ report. Counted (cases_in text.now) report) }
{
    let mut report = counted::none(heap);
    for (index, line) in text.lines().enumerate() {
        let number = index.saturating_add(1);
        run_line(heap, room, line, number, &mut report)?;
    }
    Ok(report)
}

fn run_line(
    heap: Global,
    room: &mut Room,
    line: &str,
    number: usize,
    report: &mut Report,
) -> Result<(), AllocError>
    ensures { (n : ℕ) → Counted n report.old → IfOk result (λ done. Counted (n + case_count line.now) report.new) }
{
    if line.is_empty() {
        return Ok(());
    }
    match Case::parse(line) {
        Some(case) => case.run_case(heap, room, report),
        None => differs(report, format!(in heap; "line {number}: not a case")?),
    }
}

impl Case<'_> {
    fn run_case(self, heap: Global, room: &mut Room, report: &mut Report) -> Result<(), AllocError>
        ensures { (n : ℕ) → Counted n report.old → IfOk result (λ done. Counted (n + 1) report.new) }
    {
        let got = match self.came(heap, room) {
            Ok(answer) => answer,
            Err(CaseError::OutOfMemory(full)) => return Err(full),
            Err(why) => why.to_string(heap)?,
        };
        if got.as_str() == self.expected {
            agrees(report);
            return Ok(());
        }
        let kind = self.kind;
        let id = self.id;
        let expected = self.expected;
        let note = format!(in heap; "{kind} {id}: expected {expected}, got {got}")?;
        differs(report, note)
    }
}
