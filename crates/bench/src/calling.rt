// A call that is a value.
ghost use Rattle.std.specs.Prelude.{◌≡◌, ◌++◌, length, drop};
ghost use Rattle.calls.specs.Bytes.{ImageOfBytes};
ghost use Rattle.calls.specs.Calls.{answer, after, visited};
ghost use Rattle.bench.specs.Views.{view};
ghost use Rattle.bench.specs.Calling.{within};

use crate::bench::Bench;
use calls::{Answer, Call};
use machine::visit::Visit;
use memory::Memory;
use program::refusal::Refusal;

impl<M: Memory> Bench<M> {
    /// Does a call. A go has no more room for visits than the list here.
    pub fn call(&mut self, call: &Call, visits: &mut [Visit]) -> Result<Answer, Refusal>
        ensures answer { result ≡ answer (within (length visits.old) call.now) (view M.model self.old) }
        ensures after { view M.model self.new ≡ after (within (length visits.old) call.now) (view M.model self.old) }
        ensures visits { let new = visited (within (length visits.old) call.now) (view M.model self.old) in visits.new ≡ new ++ drop (length new) visits.old }
        ensures bytes { ImageOfBytes call.now }
    {
        Ok(match call {
            Call::Seat { image } => Answer::Counts {
                tally: self.seat(image)?,
            },
            Call::Put { table, index, word } => {
                self.put(*table, *index, *word)?;
                Answer::Done
            }
            Call::Arg { register, word } => {
                self.arg(*register, *word)?;
                Answer::Done
            }
            Call::Go { room } => {
                let most = (*room).min(visits.len());
                Answer::Counts {
                    tally: self.go(&mut visits[..most])?,
                }
            }
            Call::Look { table, index } => Answer::Word {
                word: self.look(*table, *index)?,
            },
            Call::Open { table, index } => Answer::Word {
                word: self.open(*table, *index)?,
            },
            Call::Outcome => Answer::Ended {
                ending: self.outcome()?,
            },
            Call::Clear => {
                self.clear();
                Answer::Done
            }
        })
    }
}
