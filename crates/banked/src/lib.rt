// 1,024 cells in four banks, which show only their rows.
#![tactic(auto)]

ghost use Rattle.std.specs.Prelude.{◌≡◌, ℕ, ◌<◌, [], length, replicate, IfOk, slice_index_or};
ghost use Rattle.banked.specs.Banks.{cells_of, row_of};

use leaf::cells::Cells;
use memory::Mark;
use std::alloc::{AllocError, Global};

/// How many cells there are.
const CELLS: usize = 1024;

/// Cells in four banks of 256 rows: cell c is at row c / 4 of bank c % 4.
#[derive(Drop)]
pub struct Banked {
    banks: [[u32; 256]; 4],
    ghost four: { length banks ≡ 4 },
    ghost rows: { (b : ℕ) → b < 4 → length (slice_index_or banks b []) ≡ 256 },
}

impl Banked {
    /// All cells are 0 at first.
    #[tactic(auto, using(crate::proofs::Cells::cells_of_new))]
    pub fn new() -> Banked
        ensures { cells_of result.banks ≡ replicate 1024 0 }
    {
        Banked {
            banks: [[0; 256]; 4],
        }
    }

    /// Gives the cells, in the order of their numbers.
    pub fn into_cells(self, heap: Global) -> Result<Vec<u32>, AllocError>
        ensures { IfOk result (λ cells. cells.items ≡ cells_of self.banks) }
    {
        in_order(heap, &self.banks)
    }
}

// The cells of the banks, in the order of their numbers.
#[tactic(auto, unfolding(crate::specs::Banks::cells_of))]
fn in_order(heap: Global, banks: &[[u32; 256]; 4]) -> Result<Vec<u32>, AllocError>
    ensures { IfOk result (λ cells. cells.items ≡ cells_of banks.now) }
{
    (0..CELLS)
        .map(|cell| banks[cell % 4][cell / 4])
        .collect(heap)
}

#[tactic(auto, using(crate::proofs::Cells::cells))]
impl Cells for Banked {
    ghost words = { λ banked. cells_of banked.banks };

    ghost shown = { λ _. row_of };

    fn size(&self) -> usize {
        CELLS
    }

    fn mark(&self, cell: usize) -> Mark {
        (cell / 4) as Mark
    }

    fn get(&self, cell: usize) -> u32 {
        self.banks[cell % 4][cell / 4]
    }

    fn set(&mut self, cell: usize, word: u32) {
        self.banks[cell % 4][cell / 4] = word;
    }
}
