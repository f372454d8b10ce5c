// What is asked of a bench.
ghost use Rattle.std.specs.Prelude.{◌≡◌};
ghost use Rattle.calls.specs.declared.Call.TheVariants.{Look, Open, Outcome, Clear};
ghost use Rattle.calls.specs.declared.Answer.TheVariants.{Word, Ended};
ghost use Rattle.calls.specs.Calls.{answer, after};
ghost use Rattle.bench.specs.Views.{view, answered_by};

use crate::bench::Bench;
use calls::Ending;
use memory::{Access, Memory};
use program::refusal::{Reason, Refusal};
use stepping::access::fetch;

impl<M: Memory> Bench<M> {
    /// Reads a cell of a public table.
    pub fn look(&mut self, table: usize, index: usize) -> Result<u32, Refusal>
        ensures answer { answered_by Word result ≡ answer (Look table index) (view M.model self.old) }
        ensures after { view M.model self.new ≡ after (Look table index) (view M.model self.old) }
    {
        self.table(table)?;
        if self.is_secret(table) {
            return Err(Reason::SecretTable.into());
        }
        self.open(table, index)
    }

    /// Reads a cell of any table.
    pub fn open(&mut self, table: usize, index: usize) -> Result<u32, Refusal>
        ensures answer { answered_by Word result ≡ answer (Open table index) (view M.model self.old) }
        ensures after { view M.model self.new ≡ after (Open table index) (view M.model self.old) }
    {
        let window = self.table(table)?;
        self.allow(Access::Read, window, index)?;
        Ok(fetch(&mut self.memory, window, index))
    }

    /// What the last go that was accepted left in registers.
    pub fn outcome(&self) -> Result<Ending, Refusal>
        ensures { answered_by Ended result ≡ answer Outcome (view M.model self.now) }
    {
        self.last.ok_or(Reason::NoOutcome.into())
    }

    /// Empties the seen list.
    pub fn clear(&mut self)
        ensures { view M.model self.new ≡ after Clear (view M.model self.old) }
    {
        self.memory.clear();
    }
}
