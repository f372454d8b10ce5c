// Two memories of one make and size that have seen the same, and differ in their cells.
ghost use Rattle.std.specs.Prelude.{◌≡◌, true};
ghost use Rattle.piles.specs.Operations.{leaves};
ghost use Rattle.piles.specs.Pairs.{SameButCells, touched, Beside};

use crate::operations::{Operation, perform};
use memory::Memory;

/// Does the first operation on one memory, and the second on the other. What the two have seen is the
/// same afterwards where both go to the same offset, whatever words they write, and where the memories
/// hide, for any two offsets of one table.
pub fn perform_both<M: Memory>(one: &mut M, other: &mut M, first: Operation, second: Operation)
    ensures one { M.model one.new ≡ leaves first (M.model one.old) }
    ensures other { M.model other.new ≡ leaves second (M.model other.old) }
    ensures same { SameButCells (M.model one.old) (M.model other.old) → touched first ≡ touched second → SameButCells (M.model one.new) (M.model other.new) }
    ensures hidden { SameButCells (M.model one.old) (M.model other.old) → (M.model one.old).rules.hides ≡ true → Beside first second → SameButCells (M.model one.new) (M.model other.new) }
{
    perform(one, first);
    perform(other, second);
}
