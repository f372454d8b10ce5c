// Cells that are handed in, which show their numbers.
#![tactic(auto)]

ghost use Rattle.std.specs.Prelude.{◌≡◌};
ghost use Rattle.flat.specs.Flat.{counting, number_of};

use leaf::Leaf;
use leaf::cells::Cells;
use memory::Mark;

/// The most cells that count.
const MOST: usize = 65536;

/// Cells that are handed in; the first 65,536 count.
#[derive(Drop)]
pub struct Flat {
    pub cells: Vec<u32>,
}

impl Flat {
    /// Gives the cells that count.
    pub fn into_cells(self) -> Vec<u32>
        ensures { result.items ≡ counting self.cells.items }
    {
        let Flat { mut cells } = self;
        cells.truncate(MOST);
        cells
    }
}

/// Gives back the cells of a memory, and its list with the marks in front.
pub fn into_parts(memory: Leaf<Flat>) -> (Vec<u32>, Vec<Mark>)
    ensures cells { result.0 ≡ memory.cells.cells }
    ensures list { result.1 ≡ memory.seen.list }
{
    let (Flat { cells }, list) = memory.into_parts();
    (cells, list)
}

impl Cells for Flat {
    ghost words = { λ flat. counting flat.cells.items };

    ghost shown = { λ _. number_of };

    fn size(&self) -> usize {
        self.cells.len().min(MOST)
    }

    fn mark(&self, cell: usize) -> Mark {
        cell as Mark
    }

    fn get(&self, cell: usize) -> u32 {
        self.cells[cell]
    }

    fn set(&mut self, cell: usize, word: u32) {
        self.cells[cell] = word;
    }
}
