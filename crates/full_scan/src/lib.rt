// A layer that touches every offset of a table at each access, so that none is given away.
#![tactic(auto)]

ghost use Rattle.std.specs.Prelude.{◌≡◌, ◌+◌, ◌*◌, ◌≤◌, if◌then◌else◌, refl, slice_index, slice_set};
ghost use Rattle.memory.specs.declared.Access.TheVariants.{Read, Write};
ghost use Rattle.memory.specs.Description.{free, marked};
ghost use Rattle.memory.specs.Laws.{Within};
ghost use Rattle.full_scan.specs.Scan.{scan_over, turns, turn_cost};
ghost use Rattle.full_scan.specs.Costs.{scan_lawful};

use layer::Layer;
use memory::denial::denial;
use memory::window::Window;
use memory::{Access, Mark, Memory};
use program::refusal::Refusal;

// The number is what contracts give: with an Option for more than a million each would turn it into this.
/// A cost that is larger is held at this.
const HELD: usize = 1_000_001;

/// A scan of the whole table.
#[derive(Clone, Copy)]
pub struct FullScan;

// The new word here, and the old one elsewhere.
fn chosen(here: bool, new: u32, old: u32) -> u32
    ensures { result ≡ (if here then new else old) }
{
    if here { new } else { old }
}

// That the access is allowed is asked of both: it is a fact about the memory as it is at the call.

// Reads each offset, and answers the word at `off`.
fn read_all<M: Memory>(below: &mut M, table: Window, off: usize) -> u32
    requires within { Within (M.model below.old) table.first table.length off }
    requires room { table.length * turn_cost (M.model below.old).rules.cost Read table.length ≤ free (M.model below.old) }
    ensures value { result ≡ slice_index (M.model below.old).cells (table.first + off) }
    ensures after { M.model below.new ≡ marked (M.model below.old) (M.model below.old).cells (turns (M.model below.old).rules.shows Read table.first table.length table.length) }
{
    let mut found = 0;
    for at in 0..table.length {
        let word = below.read(table, at).unwrap();
        found = chosen(at == off, word, found);
    }
    found
}

// Reads and then writes each offset: the new word at `off`, and elsewhere the old one.
fn write_all<M: Memory>(below: &mut M, table: Window, off: usize, word: u32)
    requires within { Within (M.model below.old) table.first table.length off }
    requires room { table.length * turn_cost (M.model below.old).rules.cost Write table.length ≤ free (M.model below.old) }
    ensures { M.model below.new ≡ marked (M.model below.old) (slice_set (M.model below.old).cells (table.first + off) word) (turns (M.model below.old).rules.shows Write table.first table.length table.length) }
{
    for at in 0..table.length {
        let old = below.read(table, at).unwrap();
        below
            .write(table, at, chosen(at == off, word, old))
            .unwrap();
    }
}

impl Layer for FullScan {
    ghost over = { λ _. scan_over };

    ghost lawful = { λ _. scan_lawful };

    ghost sized = { λ _ _. refl };

    ghost freed = { λ _ _. refl };

    ghost counted = { λ _ _. refl };

    ghost clears = { λ _ _. refl };

    // A scan is long, so it stays out of the accesses that go through other layers.
    #[inline(never)]
    fn read<M: Memory>(&self, below: &mut M, table: Window, off: usize) -> Result<u32, Refusal> {
        let cost = self.cost(below, Access::Read, table.length);
        denial(below.size(), table, off, cost, below.free())?;
        Ok(read_all(below, table, off))
    }

    #[inline(never)]
    fn write<M: Memory>(
        &self,
        below: &mut M,
        table: Window,
        off: usize,
        word: u32,
    ) -> Result<(), Refusal> {
        let cost = self.cost(below, Access::Write, table.length);
        denial(below.size(), table, off, cost, below.free())?;
        write_all(below, table, off, word);
        Ok(())
    }

    fn cost<M: Memory>(&self, below: &M, access: Access, len: usize) -> usize {
        let read = below.cost(Access::Read, len);
        let turn = match access {
            Access::Read => read,
            Access::Write => read.saturating_add(below.cost(Access::Write, len)),
        };
        len.saturating_mul(turn).min(HELD)
    }

    fn hides<M: Memory>(&self, _below: &M) -> bool {
        true
    }

    fn mark<M: Memory>(&self, below: &M, j: usize) -> Option<Mark> {
        below.mark(j)
    }
}
