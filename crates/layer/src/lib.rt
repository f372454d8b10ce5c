// Layers, and a memory with a layer on top.
#![tactic(auto)]

ghost use Rattle.std.specs.Prelude.{◌≡◌};

use memory::window::Window;
use memory::{Access, Mark, Memory};
use program::refusal::Refusal;

pub mod optional;

/// What may be put on a memory. It changes what an access shows, and not what it answers.
pub trait Layer {
    ghost use Rattle.std.specs.Prelude.{length};
    ghost use Rattle.std.specs.List.{slice_get};
    ghost use Rattle.memory.specs.Description.{Description, free, cleared};
    ghost use Rattle.memory.specs.Accesses.{read_answer, read_after, write_answer, write_after};
    ghost use Rattle.memory.specs.Laws.{Lawful};

    /// The memory below as it is seen through the layer.
    ghost over: { Self → Description → Description };

    /// Reads through the layer.
    fn read<M: Memory>(&self, below: &mut M, table: Window, off: usize) -> Result<u32, Refusal>
        ensures answer { result ≡ read_answer (over self.now (M.model below.old)) table.first table.length off }
        ensures after { over self.now (M.model below.new) ≡ read_after (over self.now (M.model below.old)) table.first table.length off };

    /// Writes through the layer.
    fn write<M: Memory>(
        &self,
        below: &mut M,
        table: Window,
        off: usize,
        word: u32,
    ) -> Result<(), Refusal>
        ensures answer { result ≡ write_answer (over self.now (M.model below.old)) table.first table.length off }
        ensures after { over self.now (M.model below.new) ≡ write_after (over self.now (M.model below.old)) table.first table.length off word };

    /// How many marks one access to a table of this length shows.
    fn cost<M: Memory>(&self, below: &M, access: Access, len: usize) -> usize
        ensures { result ≡ (over self.now (M.model below.now)).rules.cost access len };

    /// Whether any two offsets of a table show the same.
    fn hides<M: Memory>(&self, below: &M) -> bool
        ensures { result ≡ (over self.now (M.model below.now)).rules.hides };

    /// Mark `j`, where there is one.
    fn mark<M: Memory>(&self, below: &M, j: usize) -> Option<Mark>
        ensures { result ≡ slice_get (over self.now (M.model below.now)).seen j };

    ghost lawful: { (l : Self) (d : Description) → Lawful d → Lawful (over l d) };

    ghost sized: { (l : Self) (d : Description) → length (over l d).cells ≡ length d.cells };

    ghost freed: { (l : Self) (d : Description) → free (over l d) ≡ free d };

    ghost counted: { (l : Self) (d : Description) → length (over l d).seen ≡ length d.seen };

    ghost clears: { (l : Self) (d : Description) → over l (cleared d) ≡ cleared (over l d) };
}

/// A memory with a layer on top.
#[derive(Drop)]
pub struct Over<L, M> {
    layer: L,
    below: M,
}

impl<L: Layer, M: Memory> Over<L, M> {
    pub fn new(layer: L, below: M) -> Over<L, M>
        ensures layer { result.layer ≡ layer }
        ensures below { result.below ≡ below }
    {
        Over { layer, below }
    }
}

impl<L: Layer + Drop, M: Memory> Over<L, M> {
    /// Gives back the memory below.
    pub fn into_below(self) -> M
        ensures { result ≡ self.below }
    {
        let Over { layer: _, below } = self;
        below
    }
}

impl<L: Layer, M: Memory> Memory for Over<L, M> {
    ghost model = { λ m. L.Layer.over m.layer (M.Memory.model m.below) };

    ghost lawful = { λ m. L.Layer.lawful m.layer (M.Memory.model m.below) (M.Memory.lawful m.below) };

    // Without the hints an access makes a call for each layer, and for each that is not there.
    #[inline(always)]
    fn read(&mut self, table: Window, off: usize) -> Result<u32, Refusal> {
        self.layer.read(&mut self.below, table, off)
    }

    #[inline(always)]
    fn write(&mut self, table: Window, off: usize, word: u32) -> Result<(), Refusal> {
        self.layer.write(&mut self.below, table, off, word)
    }

    fn size(&self) -> usize {
        self.below.size()
    }

    fn free(&self) -> usize {
        self.below.free()
    }

    fn cost(&self, access: Access, len: usize) -> usize {
        self.layer.cost(&self.below, access, len)
    }

    fn hides(&self) -> bool {
        self.layer.hides(&self.below)
    }

    fn marks(&self) -> usize {
        self.below.marks()
    }

    fn mark(&self, j: usize) -> Option<Mark> {
        self.layer.mark(&self.below, j)
    }

    fn clear(&mut self) {
        self.below.clear();
    }
}
