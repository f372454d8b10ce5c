// Why an access is denied.
ghost use Rattle.std.specs.Prelude.{◌≡◌, ◌+◌, ◌<◌, ◌≤◌, true, is_ok};
ghost use Rattle.program.specs.Refusals.{refused_by};
ghost use Rattle.memory.specs.Accesses.{inside, denial};

use crate::window::Window;
use program::refusal::{Reason, Refusal};

// Whether the offset lies in the table, and the table within so many cells.
fn within(size: usize, table: Window, off: usize) -> bool
    ensures value { result ≡ inside size table.first table.length off }
    ensures bounds { result ≡ true → (off < table.length) × (table.first + table.length ≤ size) }
{
    off < table.length && table.length <= size && table.first <= size - table.length
}

/// Denies an access to `off` in a table where it goes outside, of the table or of so many cells, or
/// where there is no room for the marks that it costs.
#[tactic(auto, unfolding(crate::specs::Accesses::denial))]
pub fn denial(
    size: usize,
    table: Window,
    off: usize,
    cost: usize,
    free: usize,
) -> Result<(), Refusal>
    ensures value { refused_by result ≡ denial size table.first table.length off cost free }
    ensures bounds { is_ok result ≡ true → (off < table.length) × (table.first + table.length ≤ size) × (cost ≤ free) }
{
    if !within(size, table, off) {
        return Err(Reason::OutsideTable.into());
    }
    if cost > free {
        return Err(Reason::NoRoomForMarks.into());
    }
    Ok(())
}
