// A memory with cells of its own, flat or banked.
ghost use Rattle.std.specs.Prelude.{◌≡◌, IfOk};
ghost use Rattle.layered.specs.Leaves.{leaf_model, words_of, mark_of};

use banked::Banked;
use flat::Flat;
use leaf::cells::Cells;
use memory::Mark;
use std::alloc::{AllocError, Global};

// The makes are two and no more, and a pile gives its cells back: an enum, whose arms each method names, and no `dyn`.
/// Cells of either make.
#[derive(Drop)]
pub enum LeafCells {
    Flat(Flat),
    Banked(Banked),
}

pub type Leaf = leaf::Leaf<LeafCells>;

/// Gives the cells that count, in the order of their numbers.
pub fn into_cells(leaf: Leaf, heap: Global) -> Result<Vec<u32>, AllocError>
    ensures { IfOk result (λ cells. cells.items ≡ (leaf_model leaf).cells) }
{
    let (cells, _list) = leaf.into_parts();
    match cells {
        LeafCells::Flat(cells) => Ok(cells.into_cells()),
        LeafCells::Banked(cells) => cells.into_cells(heap),
    }
}

impl Cells for LeafCells {
    ghost words = { words_of };

    ghost shown = { mark_of };

    fn size(&self) -> usize {
        match self {
            LeafCells::Flat(cells) => cells.size(),
            LeafCells::Banked(cells) => cells.size(),
        }
    }

    fn mark(&self, cell: usize) -> Mark {
        match self {
            LeafCells::Flat(cells) => cells.mark(cell),
            LeafCells::Banked(cells) => cells.mark(cell),
        }
    }

    fn get(&self, cell: usize) -> u32 {
        match self {
            LeafCells::Flat(cells) => cells.get(cell),
            LeafCells::Banked(cells) => cells.get(cell),
        }
    }

    fn set(&mut self, cell: usize, word: u32) {
        match self {
            LeafCells::Flat(cells) => cells.set(cell, word),
            LeafCells::Banked(cells) => cells.set(cell, word),
        }
    }
}
