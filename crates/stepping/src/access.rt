// Accesses that are known not to be denied.
ghost use Rattle.std.specs.Prelude.{◌≡◌, ◌+◌, ◌≤◌, slice_index, slice_set};
ghost use Rattle.memory.specs.declared.Access.TheVariants.{Read, Write};
ghost use Rattle.memory.specs.Description.{marked, free};
ghost use Rattle.memory.specs.Laws.{Within};

use memory::Memory;
use memory::window::Window;

// What is asked of both is a fact about the memory as it is at the call, which no window can carry.

/// The word at an offset of a window.
#[tactic(auto, using(memory::proofs::Accepted::read_answers, memory::proofs::Accepted::read_leaves))]
pub fn fetch<M: Memory>(memory: &mut M, window: Window, off: usize) -> u32
    requires within { Within (M.model memory.old) window.first window.length off }
    requires room { (M.model memory.old).rules.cost Read window.length ≤ free (M.model memory.old) }
    ensures word { result ≡ slice_index (M.model memory.old).cells (window.first + off) }
    ensures after { M.model memory.new ≡ marked (M.model memory.old) (M.model memory.old).cells ((M.model memory.old).rules.shows Read window.first window.length off) }
{
    memory.read(window, off).unwrap()
}

/// Sets the word at an offset of a window.
#[tactic(auto, using(memory::proofs::Accepted::write_answers, memory::proofs::Accepted::write_leaves))]
pub fn keep<M: Memory>(memory: &mut M, window: Window, off: usize, word: u32)
    requires within { Within (M.model memory.old) window.first window.length off }
    requires room { (M.model memory.old).rules.cost Write window.length ≤ free (M.model memory.old) }
    ensures { M.model memory.new ≡ marked (M.model memory.old) (slice_set (M.model memory.old).cells (window.first + off) word) ((M.model memory.old).rules.shows Write window.first window.length off) }
{
    memory.write(window, off, word).unwrap()
}
