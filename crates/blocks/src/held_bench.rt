// A bench over the memory that a block names.
ghost use Rattle.std.specs.Prelude.{codes};

use crate::bench_call::call_of;
use crate::held::Held;
use crate::line_error::LineError;
use crate::reply::Reply;
use bench::bench::Bench;
use calls::Call;
use layered::pile::Pile;
use player::entry::{Entry, enter};
use std::alloc::{AllocError, Global};

impl Held for Bench<Pile> {
    ghost head = { codes "bench " };

    fn head() -> &'static str {
        "bench "
    }

    fn over(heap: Global, pile: Pile) -> Result<Bench<Pile>, AllocError> {
        Bench::new(heap, pile)
    }

    fn answer(&mut self, heap: Global, text: &str) -> Result<String, LineError> {
        let call = call_of(heap, text)?;
        let Entry {
            answer,
            visits,
            marks: _,
        } = enter(heap, self, &call)?;
        let visits = match (call, answer) {
            (Call::Go { .. }, Ok(_)) => Some(visits.as_slice()),
            _ => None,
        };
        Ok(Reply { answer, visits }.to_string(heap)?)
    }

    fn pile(&self) -> &Pile {
        self.memory()
    }

    fn into_pile(self) -> Pile {
        self.into_memory()
    }
}
