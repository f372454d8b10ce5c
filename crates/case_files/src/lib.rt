// Case files of every kind: cases on images, one to a line, or blocks of calls to memories or to benches.
#![tactic(auto)]

ghost use Rattle.std.specs.Prelude.{◌≡◌, IfOk};
ghost use Rattle.blocks.specs.Counts.{begins};
ghost use Rattle.counted.specs.Counted.{Counted};
ghost use Rattle.case_files.specs.CaseFiles.{has_blocks, count_of};

use bench::bench::Bench;
use cases::case_file;
use layered::pile::Pile;
use std::alloc::{AllocError, Global};
use tally::report::Report;
use trials::room::Room;

// Whether a line begins a block of the kind.
fn begins(line: &str, head: &str) -> bool
    ensures { result ≡ begins head.now line.now }
{
    line.as_bytes().starts_with(head.as_bytes())
}

// Whether a text has blocks of the kind.
fn has_blocks(text: &str, head: &str) -> bool
    ensures { result ≡ has_blocks head.now text.now }
{
    text.lines().any(|line| begins(line, head))
}

/// Runs all cases of a text, whose kind its lines tell.
pub fn run(heap: Global, room: &mut Room, text: &str) -> Result<Report, AllocError>
    ensures { IfOk result (λ report. Counted (count_of text.now) report) }
{
    if has_blocks(text, "memory ") {
        blocks::run::<Pile>(heap, text)
    } else if has_blocks(text, "bench ") {
        blocks::run::<Bench<Pile>>(heap, text)
    } else {
        case_file::run(heap, room, text)
    }
}
