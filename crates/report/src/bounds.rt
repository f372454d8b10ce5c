// The most steps and the most marks of a program.
ghost use Rattle.std.specs.Prelude.{◌≡◌, Some};
ghost use Rattle.program.specs.Programs.{code_of};
ghost use Rattle.counting.specs.Counting.{most_steps, most_marks};
ghost use Rattle.report.specs.Costs.{flat_cost, scan_cost};
ghost use Rattle.report.specs.Bounds.{bounds_text};

use banked::Banked;
use counting::{most_marks, most_steps};
use flat::Flat;
use full_scan::FullScan;
use layer::Over;
use leaf::Leaf;
use program::program::Program;
use std::alloc::Global;
use std::fmt;

/// The most steps, and the most marks on memories of three kinds. Both stop at 1,000,001.
#[derive(Clone, Copy)]
pub struct Bounds {
    pub steps: usize,
    pub flat: usize,
    pub banked: usize,
    pub scanned: usize,
}

fn empty(heap: Global) -> Leaf<Flat> {
    let cells = Vec::new(heap);
    Leaf::new(Flat { cells }, Vec::new(heap))
}

/// What a program counts. What an access costs does not depend on cells, so none are needed.
pub fn bounds_of(heap: Global, program: &Program) -> Bounds
    ensures steps { result.steps ≡ most_steps (code_of program.now) }
    ensures flat { result.flat ≡ most_marks flat_cost program.now.header.tables (code_of program.now) }
    ensures banked { result.banked ≡ result.flat }
    ensures scanned { result.scanned ≡ most_marks scan_cost program.now.header.tables (code_of program.now) }
{
    let flat = empty(heap);
    let banked = Leaf::new(Banked::new(), Vec::new(heap));
    let scanned = Over::new(FullScan, empty(heap));
    Bounds {
        steps: most_steps(program),
        flat: most_marks(program, &flat),
        banked: most_marks(program, &banked),
        scanned: most_marks(program, &scanned),
    }
}

impl fmt::Display for Bounds {
    ghost output = { λ b. Some (bounds_text b.steps b.flat b.banked b.scanned) };

    fn fmt<W: fmt::Write>(&self, f: &mut fmt::Formatter<W>) -> fmt::Result {
        let steps = self.steps;
        let flat = self.flat;
        let banked = self.banked;
        let scanned = self.scanned;
        write!(
            f,
            "most steps: {steps}\nmost marks: {flat} on flat, {banked} on banked, {scanned} with a full scan"
        )
    }
}
