// A layer that shows only the line of each mark below it, as a cache does.
#![tactic(auto)]

ghost use Rattle.std.specs.Prelude.{◌≡◌, ◌≤◌, min, refl};

use layer::Layer;
use memory::window::Window;
use memory::{Access, Mark, Memory};
use program::refusal::Refusal;

/// Lines of 2 to the exponent.
#[derive(Clone, Copy)]
pub struct Line {
    exponent: u32,
    ghost few: { exponent ≤ 6 },
}

impl Line {
    /// An exponent above 6 counts as 6.
    pub fn new(exponent: u32) -> Line
        ensures { result.exponent ≡ min exponent 6 }
    {
        Line {
            exponent: exponent.min(6),
        }
    }
}

impl Layer for Line {
    ghost use Rattle.std.proofs.Common.{sym};
    ghost use Rattle.line.specs.Line.{line_over};
    ghost use Rattle.line.specs.Lines.{line_lawful, line_free, line_counted};

    ghost over = { λ line. line_over line.exponent };

    ghost lawful = { λ line. line_lawful line.exponent };

    ghost sized = { λ line d. refl };

    ghost freed = { λ line d. sym (line_free line.exponent d) };

    ghost counted = { λ line. line_counted line.exponent };

    ghost clears = { λ line d. refl };

    // Without the hints an access makes a call for each line, and waits for each answer.
    #[inline(always)]
    fn read<M: Memory>(&self, below: &mut M, table: Window, off: usize) -> Result<u32, Refusal> {
        below.read(table, off)
    }

    #[inline(always)]
    fn write<M: Memory>(
        &self,
        below: &mut M,
        table: Window,
        off: usize,
        word: u32,
    ) -> Result<(), Refusal> {
        below.write(table, off, word)
    }

    fn cost<M: Memory>(&self, below: &M, access: Access, len: usize) -> usize {
        below.cost(access, len)
    }

    fn hides<M: Memory>(&self, below: &M) -> bool {
        below.hides()
    }

    fn mark<M: Memory>(&self, below: &M, j: usize) -> Option<Mark> {
        below.mark(j).map(|mark| mark >> self.exponent)
    }
}
