// An entry of a log: what a call answered, and what was then seen.
ghost use Rattle.std.specs.Prelude.{◌≡◌, IfOk, MatchResult};
ghost use Rattle.calls.specs.Bytes.{ImageOfBytes};
ghost use Rattle.calls.specs.Calls.{after};
ghost use Rattle.bench.specs.Views.{view};
ghost use Rattle.player.specs.Entries.{room_of, made_by, shown, noted};

use bench::bench::Bench;
use calls::{Answer, Call, MOST_VISITS};
use machine::visit::{Choice, Visit};
use memory::Memory;
use program::refusal::Refusal;
use std::alloc::{AllocError, Global};

/// A visit that was not made yet.
const UNVISITED: Visit = Visit {
    place: 0,
    choice: Choice::Onward,
};

/// The answer of a call, the visits of a go, and the number of marks that are then seen.
#[derive(Drop)]
pub struct Entry {
    pub answer: Result<Answer, Refusal>,
    pub visits: Vec<Visit>,
    pub marks: usize,
}

// The room that a call wants for visits: more than the most is as good as the most.
fn room_of(call: &Call) -> usize
    ensures { result ≡ room_of call.now }
{
    match call {
        Call::Go { room } => (*room).min(MOST_VISITS),
        _ => 0,
    }
}

// How many visits a call made, by its answer.
fn made_by(call: &Call, answer: Result<Answer, Refusal>) -> usize
    ensures { result ≡ made_by call.now answer }
{
    match (call, answer) {
        (Call::Go { .. }, Ok(Answer::Counts { tally })) => tally.steps,
        _ => 0,
    }
}

/// Does a call on a bench; where the heap has no room for its visits, nothing is done.
pub fn enter<M: Memory>(
    heap: Global,
    bench: &mut Bench<M>,
    call: &Call,
) -> Result<Entry, AllocError>
    ensures entry { IfOk result (λ e. shown e ≡ noted call.now (view M.model bench.old)) }
    ensures after { MatchResult result (λ _. view M.model bench.new ≡ after call.now (view M.model bench.old)) (λ _. view M.model bench.new ≡ view M.model bench.old) }
    ensures bytes { IfOk result (λ _. ImageOfBytes call.now) }
{
    let mut visits = vec![in heap; UNVISITED; room_of(call)]?;
    let answer = bench.call(call, &mut visits);
    visits.truncate(made_by(call, answer));
    Ok(Entry {
        answer,
        visits,
        marks: bench.memory().marks(),
    })
}
