// A program is seated on a bench.
ghost use Rattle.std.specs.Prelude.{◌≡◌};
ghost use Rattle.calls.specs.Bytes.{Bytes};
ghost use Rattle.calls.specs.declared.Answer.TheVariants.{Counts};
ghost use Rattle.bench.specs.Views.{view, answered_by, seat_answer, seat_after};

use crate::bench::Bench;
use calls::Tally;
use counting::{most_marks, most_steps};
use memory::Memory;
use program::refusal::{Reason, Refusal};
use windows::cells;

impl<M: Memory> Bench<M> {
    /// Reads an image, converts it and makes it the program of the bench; answers the most steps and
    /// the most marks of a go.
    pub fn seat(&mut self, image: &[u8]) -> Result<Tally, Refusal>
        ensures answer { answered_by Counts result ≡ seat_answer image.now (view M.model self.old) }
        ensures after { view M.model self.new ≡ seat_after image.now (view M.model self.old) }
        ensures bytes { Bytes image.now }
    {
        if self.program.is_some() {
            return Err(Reason::AlreadySeated.into());
        }
        let source = self.lists.read(image)?;
        let converted = self.lists.convert(&source, self.memory.hides());
        self.lists.source = source.into_list();
        let program = converted?;
        if cells(&program) > self.memory.size() {
            self.lists.result = program.into_list();
            return Err(Reason::MemoryTooSmall.into());
        }
        let tally = Tally {
            steps: most_steps(&program),
            marks: most_marks(&program, &self.memory),
        };
        self.program = Some(program);
        Ok(tally)
    }
}
