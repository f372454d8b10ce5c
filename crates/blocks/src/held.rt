// What a block holds: what its calls are made to.
ghost use Rattle.std.specs.Prelude.{◌≡◌, ℕ, List};

use crate::line_error::LineError;
use layered::pile::Pile;
use std::alloc::{AllocError, Global};

/// Something over a pile that answers calls.
pub trait Held: Sized {
    /// What stands before the id in the first line of a block.
    ghost head: { List ℕ };

    fn head() -> &'static str
        ensures { result.now ≡ head };

    /// Takes the pile that a block names.
    fn over(heap: Global, pile: Pile) -> Result<Self, AllocError>;

    /// The answer of a call, both in the words of the case files.
    fn answer(&mut self, heap: Global, call: &str) -> Result<String, LineError>;

    /// Lends the pile, to read what was seen of it.
    fn pile(&self) -> &Pile;

    /// Gives the pile back.
    fn into_pile(self) -> Pile;
}
