// What converting a source for a memory comes to, in lines.
ghost use Rattle.std.specs.Prelude.{◌≡◌, length, Some, if◌then◌else◌};
ghost use Rattle.program.specs.Programs.{code_of};
ghost use Rattle.counting.specs.Counting.{most_steps, most_marks};
ghost use Rattle.report.specs.Converted.{memory_name, counts_text, refused_text, written_text};
ghost use Rattle.report.specs.Costs.{flat_cost, scan_cost};

use crate::bounds::bounds_of;
use program::program::Program;
use program::refusal::Refusal;
use std::alloc::Global;
use std::fmt;

/// What a result counts, where the memory that it is converted for hides or not: over flat cells,
/// with a full scan where it hides.
#[derive(Clone, Copy)]
pub struct Counts {
    pub hides: bool,
    pub instructions: usize,
    pub steps: usize,
    pub marks: usize,
}

/// A source that cannot be converted for a memory.
#[derive(Clone, Copy)]
pub struct NotConverted {
    pub hides: bool,
    pub refusal: Refusal,
}

/// How many bytes were written of a converted image.
#[derive(Clone, Copy)]
pub struct ImageWritten {
    pub length: usize,
}

fn memory_name(hides: bool) -> &'static str
    ensures { result.now ≡ memory_name hides }
{
    if hides { "a full scan" } else { "flat" }
}

/// What a result counts.
pub fn counts_of(heap: Global, program: &Program, hides: bool) -> Counts
    ensures hides { result.hides ≡ hides }
    ensures instructions { result.instructions ≡ length (code_of program.now) }
    ensures steps { result.steps ≡ most_steps (code_of program.now) }
    ensures marks { result.marks ≡ (if hides then most_marks scan_cost program.now.header.tables (code_of program.now) else most_marks flat_cost program.now.header.tables (code_of program.now)) }
{
    let bounds = bounds_of(heap, program);
    Counts {
        hides,
        instructions: program.code().len(),
        steps: bounds.steps,
        marks: if hides { bounds.scanned } else { bounds.flat },
    }
}

impl fmt::Display for Counts {
    ghost output = { λ c. Some (counts_text c.hides c.instructions c.steps c.marks) };

    fn fmt<W: fmt::Write>(&self, f: &mut fmt::Formatter<W>) -> fmt::Result {
        let name = memory_name(self.hides);
        let instructions = self.instructions;
        let steps = self.steps;
        let marks = self.marks;
        write!(
            f,
            "converted for {name}: instructions {instructions}, most steps {steps}, most marks {marks}"
        )
    }
}

impl fmt::Display for NotConverted {
    ghost output = { λ n. Some (refused_text n.hides n.refusal) };

    fn fmt<W: fmt::Write>(&self, f: &mut fmt::Formatter<W>) -> fmt::Result {
        let name = memory_name(self.hides);
        let refusal = self.refusal;
        let reason = refusal.reason;
        write!(f, "converted for {name}: {refusal}: {reason}")
    }
}

impl fmt::Display for ImageWritten {
    ghost output = { λ w. Some (written_text w.length) };

    fn fmt<W: fmt::Write>(&self, f: &mut fmt::Formatter<W>) -> fmt::Result {
        let length = self.length;
        write!(f, "converted image written: {length} bytes")
    }
}
