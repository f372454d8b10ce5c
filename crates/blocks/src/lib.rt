// Case files of blocks: each block names a memory, and then has calls to it, or to a bench over it, with
// the answers that are expected, the marks seen, and the cells at the end.
#![tactic(auto)]

ghost use Rattle.std.specs.Prelude.{◌≡◌, ℕ, ◌+◌, IfOk, is_some, if◌then◌else◌};
ghost use Rattle.counted.specs.Counted.{Counted};
ghost use Rattle.blocks.specs.Counts.{begins, closed_at, open_after, blocks_in};

mod bench_call;
mod block;
mod call_words;
mod held;
mod held_bench;
mod held_pile;
mod line_error;
mod lines;
mod memory_call;
mod reply;

use block::{Block, Missing, close};
use counted::differs;
use held::Held;
use lines::Line;
use std::alloc::{AllocError, Global};
use tally::report::Report;

/// Runs all blocks of a text. A block counts as one, which agrees if each of its lines does.
pub fn run<H: Held + Drop>(heap: Global, text: &str) -> Result<Report, AllocError>
    ensures { IfOk result (λ report. Counted (blocks_in H.head text.now) report) }
{
    let mut report = counted::none(heap);
    let mut block: Option<Block<H>> = None;
    for (index, line) in text.lines().enumerate() {
        let number = index.saturating_add(1);
        let line = Line { number, text: line };
        block = take_line(heap, block, line, &mut report)?;
    }
    close_endless(heap, block, &mut report)?;
    Ok(report)
}

// Counts a block that has no end, where one is open.
fn close_endless<H: Held + Drop>(
    heap: Global,
    block: Option<Block<H>>,
    report: &mut Report,
) -> Result<(), AllocError>
    ensures { (n : ℕ) → Counted n report.old → IfOk result (λ done. Counted (n + (if is_some block then 1 else 0)) report.new) }
{
    match block {
        Some(block) => close(heap, block, Some(Missing::End), report),
        None => Ok(()),
    }
}

// What stands behind the word that begins a block.
fn head_of<H: Held>(text: &str) -> Option<&str>
    ensures { is_some result ≡ begins H.head text.now }
{
    text.strip_prefix(H::head())
}

fn take_line<H: Held + Drop>(
    heap: Global,
    block: Option<Block<H>>,
    line: Line,
    report: &mut Report,
) -> Result<Option<Block<H>>, AllocError>
    ensures { (n : ℕ) → Counted n report.old → IfOk result (λ next. Counted (n + closed_at H.head (is_some block) line.entry.text.now) report.new × (is_some next ≡ open_after H.head (is_some block) line.entry.text.now)) }
{
    if line.text.is_empty() {
        return Ok(block);
    }
    if let Some(head) = head_of::<H>(line.text) {
        close_endless(heap, block, report)?;
        return Ok(Some(Block::begin(
            heap,
            Line {
                number: line.number,
                text: head,
            },
        )?));
    }
    let Some(mut block) = block else {
        let number = line.number;
        differs(report, format!(in heap; "line {number}: not in a block")?)?;
        return Ok(None);
    };
    if line.text == "end" {
        let missing = block.missing();
        close(heap, block, missing, report)?;
        return Ok(None);
    }
    block.hold(heap, line)?;
    Ok(Some(block))
}
