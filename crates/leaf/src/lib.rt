// A memory with cells of its own, whatever these are.
#![tactic(auto)]

ghost use Rattle.std.specs.Prelude.{◌≡◌, ◌+◌, ◌-◌, ◌<◌, length, MatchResult, slice_set};
ghost use Rattle.program.specs.Refusals.{refused_by};
ghost use Rattle.memory.specs.Accesses.{denial};
ghost use Rattle.leaf.specs.Leaves.{leaf, limit_of};
ghost use Rattle.std.proofs.Common.{rules};

use crate::cells::Cells;
use crate::seen::SeenList;
use memory::denial::denial;
use memory::window::Window;
use memory::{Access, Mark, Memory};
use program::refusal::Refusal;

pub mod cells;
pub mod seen;

/// Cells, and the marks that were seen of them.
#[derive(Drop)]
pub struct Leaf<C> {
    cells: C,
    seen: SeenList,
}

impl<C: Cells> Leaf<C> {
    /// The list for the marks is empty at first: its length, held at 1,000,000, is the limit.
    pub fn new(cells: C, list: Vec<Mark>) -> Leaf<C>
        ensures cells { result.cells ≡ cells }
        ensures list { result.seen.list ≡ list }
        ensures empty { result.seen.count ≡ 0 }
    {
        Leaf {
            cells,
            seen: SeenList::new(list),
        }
    }

    /// Gives back the cells, and the list with the marks in front.
    pub fn into_parts(self) -> (C, Vec<Mark>)
        ensures cells { result.0 ≡ self.cells }
        ensures list { result.1 ≡ self.seen.list }
    {
        let Leaf { cells, seen } = self;
        (cells, seen.into_list())
    }

    // Notes the mark of the cell at `off`, and says which cell that is, or denies the access.
    fn touch(&mut self, table: Window, off: usize) -> Result<usize, Refusal>
        ensures denied { refused_by result ≡ denial (length (C.Cells.words self.old.cells)) table.first table.length off 1 (limit_of self.old.seen.list.items - self.old.seen.count) }
        ensures cells { self.new.cells ≡ self.old.cells }
        ensures seen { MatchResult result (λ cell. (cell ≡ table.first + off) × (cell < length (C.Cells.words self.old.cells)) × (self.new.seen.list.items ≡ slice_set self.old.seen.list.items self.old.seen.count (C.Cells.shown self.old.cells cell)) × (self.new.seen.count ≡ self.old.seen.count + 1)) (λ _. self.new.seen ≡ self.old.seen) }
    {
        denial(self.size(), table, off, 1, self.free())?;
        let cell = table.first + off;
        self.seen.note(self.cells.mark(cell));
        Ok(cell)
    }
}

impl<C: Cells> Memory for Leaf<C> {
    ghost model = { λ m. leaf (C.Cells.shown m.cells) (C.Cells.words m.cells) m.seen.list.items m.seen.count };

    ghost lawful = { Prim.search rules };

    fn read(&mut self, table: Window, off: usize) -> Result<u32, Refusal> {
        let cell = self.touch(table, off)?;
        Ok(self.cells.get(cell))
    }

    fn write(&mut self, table: Window, off: usize, word: u32) -> Result<(), Refusal> {
        let cell = self.touch(table, off)?;
        self.cells.set(cell, word);
        Ok(())
    }

    fn size(&self) -> usize {
        self.cells.size()
    }

    fn free(&self) -> usize {
        self.seen.free()
    }

    fn cost(&self, _access: Access, _len: usize) -> usize {
        1
    }

    fn hides(&self) -> bool {
        false
    }

    fn marks(&self) -> usize {
        self.seen.marks().len()
    }

    fn mark(&self, j: usize) -> Option<Mark> {
        self.seen.mark(j)
    }

    fn clear(&mut self) {
        self.seen.clear();
    }
}
