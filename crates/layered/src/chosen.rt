// A layer that is chosen at run time, or none.
use full_scan::FullScan;
use layer::{Layer, Over};
use line::Line;
use memory::window::Window;
use memory::{Access, Mark, Memory};
use program::refusal::Refusal;

// Layers are of two kinds and no more, and are copied: an enum, and no `dyn`.
/// A layer of any kind.
#[derive(Clone, Copy)]
pub enum Chosen {
    Scan,
    /// An exponent above 6 counts as 6.
    Line { exponent: u32 },
}

/// A memory with a layer on top that is chosen at run time, or with none.
pub type Layered<M> = Over<Option<Chosen>, M>;

// Each method names the arms: a trait whose methods are generic in the memory cannot be `dyn`, and no
// closure can take a layer of either kind.
impl Layer for Chosen {
    ghost use Rattle.layered.specs.Layers.{over_chosen};
    ghost use Rattle.layered.specs.Chosen.{chosen_lawful, chosen_sized, chosen_freed, chosen_counted, chosen_clears};

    ghost over = { over_chosen };

    ghost lawful = { chosen_lawful };

    ghost sized = { chosen_sized };

    ghost freed = { chosen_freed };

    ghost counted = { chosen_counted };

    ghost clears = { chosen_clears };

    #[inline(always)]
    fn read<M: Memory>(&self, below: &mut M, table: Window, off: usize) -> Result<u32, Refusal> {
        match *self {
            Chosen::Scan => FullScan.read(below, table, off),
            Chosen::Line { exponent } => Line::new(exponent).read(below, table, off),
        }
    }

    #[inline(always)]
    fn write<M: Memory>(
        &self,
        below: &mut M,
        table: Window,
        off: usize,
        word: u32,
    ) -> Result<(), Refusal> {
        match *self {
            Chosen::Scan => FullScan.write(below, table, off, word),
            Chosen::Line { exponent } => Line::new(exponent).write(below, table, off, word),
        }
    }

    fn cost<M: Memory>(&self, below: &M, access: Access, len: usize) -> usize {
        match *self {
            Chosen::Scan => FullScan.cost(below, access, len),
            Chosen::Line { exponent } => Line::new(exponent).cost(below, access, len),
        }
    }

    fn hides<M: Memory>(&self, below: &M) -> bool {
        match *self {
            Chosen::Scan => FullScan.hides(below),
            Chosen::Line { exponent } => Line::new(exponent).hides(below),
        }
    }

    fn mark<M: Memory>(&self, below: &M, j: usize) -> Option<Mark> {
        match *self {
            Chosen::Scan => FullScan.mark(below, j),
            Chosen::Line { exponent } => Line::new(exponent).mark(below, j),
        }
    }
}
