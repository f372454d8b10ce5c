// What a go starts from.
ghost use Rattle.std.specs.Prelude.{◌≡◌};
ghost use Rattle.calls.specs.declared.Call.TheVariants.{Put, Arg};
ghost use Rattle.calls.specs.declared.Answer.TheVariants.{Done};
ghost use Rattle.calls.specs.Calls.{answer, after};
ghost use Rattle.bench.specs.Views.{view, answered_by};

use crate::bench::Bench;
use memory::{Access, Memory};
use program::refusal::{Reason, Refusal};
use stepping::access::keep;

impl<M: Memory> Bench<M> {
    /// Writes a word to a table.
    pub fn put(&mut self, table: usize, index: usize, word: u32) -> Result<(), Refusal>
        ensures answer { answered_by (λ _. Done) result ≡ answer (Put table index word) (view M.model self.old) }
        ensures after { view M.model self.new ≡ after (Put table index word) (view M.model self.old) }
    {
        let window = self.table(table)?;
        self.allow(Access::Write, window, index)?;
        keep(&mut self.memory, window, index, word);
        Ok(())
    }

    /// Sets an entry register.
    pub fn arg(&mut self, register: usize, word: u32) -> Result<(), Refusal>
        ensures answer { answered_by (λ _. Done) result ≡ answer (Arg register word) (view M.model self.old) }
        ensures after { view M.model self.new ≡ after (Arg register word) (view M.model self.old) }
    {
        if self.program.is_none() {
            return Err(Reason::NoneSeated.into());
        }
        if register > 15 {
            return Err(Reason::NoSuchRegister.into());
        }
        self.entry[register] = word;
        Ok(())
    }
}
