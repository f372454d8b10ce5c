// Operations on a memory. What make and settings fix stays, whatever is done.
ghost use Rattle.std.specs.Prelude.{◌≡◌};
ghost use Rattle.memory.specs.Laws.{Settled};
ghost use Rattle.piles.specs.Operations.{leaves};

use memory::Memory;
use memory::window::Window;

// A table and an offset are two, as in a memory's own calls.
/// An operation that may change a memory.
#[derive(Clone, Copy)]
pub enum Operation {
    Read {
        table: Window,
        off: usize,
    },
    Write {
        table: Window,
        off: usize,
        word: u32,
    },
    Clear,
}

/// Does one operation. Size, limit and rules are then as before.
pub fn perform<M: Memory>(memory: &mut M, operation: Operation)
    ensures after { M.model memory.new ≡ leaves operation (M.model memory.old) }
    ensures settled { Settled (M.model memory.old) (M.model memory.new) }
{
    match operation {
        Operation::Read { table, off } => {
            let _ = memory.read(table, off);
        }
        Operation::Write { table, off, word } => {
            let _ = memory.write(table, off, word);
        }
        Operation::Clear => memory.clear(),
    }
}
