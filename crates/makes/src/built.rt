// Piles, made of what fixes them.
ghost use Rattle.std.specs.Prelude.{◌≡◌, IfOk};
ghost use Rattle.layered.specs.Leaves.{leaf_model};
ghost use Rattle.layered.specs.Piles.{pile_model, piled};
ghost use Rattle.makes.specs.Makes.{begins, filled};

use crate::make::{LeafKind, Make};
use banked::Banked;
use flat::Flat;
use layered::leaves::{Leaf, LeafCells};
use layered::pile;
use layered::pile::Pile;
use std::alloc::{AllocError, Global};

/// Makes the pile. Cells that are missing are 0, and those past the size are left out; a banked
/// memory has cells of its own, all 0.
pub fn build(heap: Global, make: Make, cells: Vec<u32>) -> Result<Pile, AllocError>
    ensures { IfOk result (λ p. pile_model p ≡ piled make.layers (begins make.kind make.size make.list cells.items)) }
{
    let leaf = leaf(heap, make, cells)?;
    Ok(pile::build(leaf, make.layers))
}

// So many cells, with zeros behind those that are given.
fn fill(mut cells: Vec<u32>, size: usize) -> Result<Vec<u32>, AllocError>
    ensures { IfOk result (λ all. all.items ≡ filled size cells.items) }
{
    cells.resize(size, 0)?;
    Ok(cells)
}

fn leaf(heap: Global, make: Make, cells: Vec<u32>) -> Result<Leaf, AllocError>
    ensures { IfOk result (λ l. leaf_model l ≡ begins make.kind make.size make.list cells.items) }
{
    let cells = match make.kind {
        LeafKind::Flat => LeafCells::Flat(Flat {
            cells: fill(cells, make.size)?,
        }),
        LeafKind::Banked => LeafCells::Banked(Banked::new()),
    };
    Ok(Leaf::new(cells, vec![in heap; 0; make.list]?))
}
