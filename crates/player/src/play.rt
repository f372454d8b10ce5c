// A list of calls, played on a new bench.
ghost use Rattle.std.specs.Prelude.{◌≡◌, IfOk, map};
ghost use Rattle.calls.specs.Benches.{new};
ghost use Rattle.calls.specs.Bytes.{OfBytes};
ghost use Rattle.calls.specs.Calls.{after_all};
ghost use Rattle.promises.specs.Promises.{Promises};
ghost use Rattle.player.specs.Entries.{shown, entries_of};

use crate::entry::{Entry, enter};
use bench::bench::Bench;
use calls::Call;
use memory::Memory;
use std::alloc::{AllocError, Global};

/// The log of a list of calls, and the memory after them.
#[derive(Drop)]
pub struct Played<M> {
    pub log: Vec<Entry>,
    pub memory: M,
}

/// Does the calls in their order, on a new bench over a memory. What a bench refuses is an answer,
/// and the log goes on.
pub fn play<M: Memory + Drop>(
    heap: Global,
    memory: M,
    calls: &[Call],
) -> Result<Played<M>, AllocError>
    ensures log { IfOk result (λ p. map shown p.log.items ≡ entries_of calls.now (new (M.model memory))) }
    ensures memory { IfOk result (λ p. M.model p.memory ≡ (after_all calls.now (new (M.model memory))).memory) }
    ensures promises { Promises (M.model memory) }
    ensures bytes { IfOk result (λ _. OfBytes calls.now) }
{
    let mut bench = Bench::new(heap, memory)?;
    let mut log = Vec::new(heap);
    for call in calls {
        log.push(enter(heap, &mut bench, call)?)?;
    }
    Ok(Played {
        log,
        memory: bench.into_memory(),
    })
}
