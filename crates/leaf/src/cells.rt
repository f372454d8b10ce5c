// Cells, and what an observer sees of an access to each.
ghost use Rattle.std.specs.Prelude.{◌≡◌, ◌<◌, ℕ, List, length, slice_index, slice_set};

use memory::Mark;

/// Cells, each of which shows one mark that never depends on what any of them holds.
pub trait Cells {
    /// What the cells hold, in the order of their numbers.
    ghost words: { Self → List ℕ };

    /// The mark that an access to a cell shows, by its number.
    ghost shown: { Self → ℕ → ℕ };

    /// The number of cells.
    fn size(&self) -> usize
        ensures { result ≡ length (words self.now) };

    /// The mark of a cell.
    fn mark(&self, cell: usize) -> Mark
        requires { cell < length (words self.now) }
        ensures { result ≡ shown self.now cell };

    /// The word in a cell.
    fn get(&self, cell: usize) -> u32
        requires { cell < length (words self.now) }
        ensures { result ≡ slice_index (words self.now) cell };

    /// Sets a cell, and nothing else.
    fn set(&mut self, cell: usize, word: u32)
        requires { cell < length (words self.old) }
        ensures words { words self.new ≡ slice_set (words self.old) cell word }
        ensures shown { shown self.new ≡ shown self.old };
}
