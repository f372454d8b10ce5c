// The tables of the program that is seated.
ghost use Rattle.std.specs.Prelude.{◌≡◌, ◌+◌, ◌<◌, ◌≤◌, [], ◌∷◌, length, IfOk, nat_le, nat_lt};
ghost use Rattle.program.specs.declared.refusal.Reason.TheVariants.{NoneSeated, NoSuchTable, IndexTooLarge, NoFreeMarks};
ghost use Rattle.program.specs.Refusals.{refused_by};
ghost use Rattle.memory.specs.Description.{free};
ghost use Rattle.calls.specs.Benches.{none_seated, no_such_table, base, len, secret_table};
ghost use Rattle.calls.specs.Calls.{first_of, ◌⇒◌};
ghost use Rattle.bench.specs.Views.{view};

use crate::bench::Bench;
use memory::window::Window;
use memory::{Access, Memory};
use program::refusal::{Reason, Refusal};

impl<M: Memory> Bench<M> {
    // The program, and the cells of a table.
    pub(crate) fn table(&self, table: usize) -> Result<Window, Refusal>
        ensures refusal { let b = view M.model self.now in refused_by result ≡ first_of (none_seated b ⇒ NoneSeated ∷ no_such_table b table ⇒ NoSuchTable ∷ []) }
        ensures window { let b = view M.model self.now in IfOk result (λ w. (w.first ≡ base b table) × (w.length ≡ len b table) × (w.first + w.length ≤ length b.memory.cells)) }
    {
        let Some(program) = &self.program else {
            return Err(Reason::NoneSeated.into());
        };
        let header = program.header();
        if table >= usize::from(header.used) {
            return Err(Reason::NoSuchTable.into());
        }
        Ok(Window {
            first: header.first_cell(table) as usize,
            length: usize::from(header.tables[table].length),
        })
    }

    // Whether a table is secret; where there is none it is not.
    pub(crate) fn is_secret(&self, table: usize) -> bool
        ensures { result ≡ secret_table (view M.model self.now) table }
    {
        match &self.program {
            Some(program) => {
                let tables = program.header().tables;
                tables.get(table).is_some_and(|entry| entry.secret)
            }
            None => false,
        }
    }

    // Whether there is a cell of this index in the window, and marks are free for an access to it.
    pub(crate) fn allow(&self, access: Access, window: Window, index: usize) -> Result<(), Refusal>
        ensures refusal { let d = M.model self.now.memory in refused_by result ≡ first_of (nat_le window.length index ⇒ IndexTooLarge ∷ nat_lt (free d) (d.rules.cost access window.length) ⇒ NoFreeMarks ∷ []) }
        ensures allowed { let d = M.model self.now.memory in IfOk result (λ _. (index < window.length) × (d.rules.cost access window.length ≤ free d)) }
    {
        if index >= window.length {
            return Err(Reason::IndexTooLarge.into());
        }
        if self.memory.cost(access, window.length) > self.memory.free() {
            return Err(Reason::NoFreeMarks.into());
        }
        Ok(())
    }
}
