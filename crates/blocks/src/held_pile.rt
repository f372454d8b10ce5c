// A memory by itself, which a block names.
ghost use Rattle.std.specs.Prelude.{codes};

use crate::held::Held;
use crate::line_error::LineError;
use crate::memory_call::call_of;
use layered::pile::Pile;
use makes::call::perform;
use std::alloc::{AllocError, Global};

impl Held for Pile {
    ghost head = { codes "memory " };

    fn head() -> &'static str {
        "memory "
    }

    fn over(_heap: Global, pile: Pile) -> Result<Pile, AllocError> {
        Ok(pile)
    }

    fn answer(&mut self, heap: Global, text: &str) -> Result<String, LineError> {
        let call = call_of(text)?;
        Ok(perform(self, call).to_string(heap)?)
    }

    fn pile(&self) -> &Pile {
        self
    }

    fn into_pile(self) -> Pile {
        self
    }
}
