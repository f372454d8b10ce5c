// Openings with the labels of their conditions.
ghost use Rattle.std.specs.Prelude.{◌≡◌, []};
ghost use Rattle.brackets.specs.Labelled.{mark};
ghost use Rattle.labels.specs.Theorems.{EveryKind};

use brackets::openings::Openings;
use program::opening::{Marked, Opening};

/// At place 0, where nothing is open. Labels may be of any kind: what holds of the smallest labels of
/// every kind stands here.
pub fn none_open<L: Copy + Default>() -> Openings<L>
    ensures value { result ≡ [] }
    ensures theory { EveryKind L }
{
    Openings::new()
}

// No code makes marked openings by it now; its contract carries the theory.
/// An opening, with the label of its condition.
pub fn mark<L>(opening: Opening, label: L) -> Marked<L>
    ensures value { result ≡ mark opening label }
    ensures theory { EveryKind L }
{
    Marked { opening, label }
}
