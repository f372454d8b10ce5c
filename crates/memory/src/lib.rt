// What a memory is: cells that are read and written, and a list of the marks that an observer has
// seen of it.
#![tactic(auto)]

ghost use Rattle.std.specs.Prelude.{◌≡◌, length};
ghost use Rattle.std.specs.List.{slice_get};
ghost use Rattle.memory.specs.Description.{Description, free, cleared};
ghost use Rattle.memory.specs.Accesses.{read_answer, read_after, write_answer, write_after};
ghost use Rattle.memory.specs.Laws.{Lawful};

use crate::window::Window;
use program::refusal::Refusal;

pub mod denial;
pub mod window;

/// What an observer sees of an access: a row of these.
pub type Mark = u32;

/// The kind of an access.
#[derive(Clone, Copy)]
pub enum Access {
    Read,
    Write,
}

// A table and an offset stay two: a scan goes through many offsets of one table, and its length alone is asked too.
/// Cells in tables: an access goes to the offset `off` of a table.
pub trait Memory {
    /// The memory as its user sees it.
    ghost model: { Self → Description };

    /// Answers the cell at `off` in the table, and appends what that shows.
    fn read(&mut self, table: Window, off: usize) -> Result<u32, Refusal>
        ensures answer { result ≡ read_answer (model self.old) table.first table.length off }
        ensures after { model self.new ≡ read_after (model self.old) table.first table.length off };

    /// Sets the cell at `off` in the table only, and appends what that shows.
    fn write(&mut self, table: Window, off: usize, word: u32) -> Result<(), Refusal>
        ensures answer { result ≡ write_answer (model self.old) table.first table.length off }
        ensures after { model self.new ≡ write_after (model self.old) table.first table.length off word };

    /// The number of cells.
    fn size(&self) -> usize
        ensures { result ≡ length (model self.now).cells };

    /// How many marks there is room for.
    fn free(&self) -> usize
        ensures { result ≡ free (model self.now) };

    /// How many marks one access to a table of this length shows.
    fn cost(&self, access: Access, len: usize) -> usize
        ensures { result ≡ (model self.now).rules.cost access len };

    /// Whether any two offsets of a table show the same.
    fn hides(&self) -> bool
        ensures { result ≡ (model self.now).rules.hides };

    /// The number of marks seen.
    fn marks(&self) -> usize
        ensures { result ≡ length (model self.now).seen };

    /// Mark `j`, where there is one.
    fn mark(&self, j: usize) -> Option<Mark>
        ensures { result ≡ slice_get (model self.now).seen j };

    /// Empties the seen list, and nothing else.
    fn clear(&mut self)
        ensures { model self.new ≡ cleared (model self.old) };

    ghost lawful: { (m : Self) → Lawful (model m) };
}
