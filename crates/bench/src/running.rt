// A go: the program that is seated is run.
ghost use Rattle.std.specs.Prelude.{◌≡◌, ◌++◌, length, drop};
ghost use Rattle.machine.specs.States.{held};
ghost use Rattle.calls.specs.Benches.{ending_of};
ghost use Rattle.calls.specs.declared.Call.TheVariants.{Go};
ghost use Rattle.calls.specs.declared.Answer.TheVariants.{Counts};
ghost use Rattle.calls.specs.Calls.{answer, after, visited};
ghost use Rattle.bench.specs.Views.{view, answered_by};

use crate::bench::Bench;
use calls::{Ending, Tally};
use machine::visit::Visit;
use memory::Memory;
use program::refusal::{Reason, Refusal};
use run::{Outcome, run};

// What a run left in registers 0 to 15 and 24.
fn ending(outcome: &Outcome) -> Ending
    requires { length outcome.now.registers ≡ 32 }
    ensures { result ≡ ending_of (held outcome.now.registers) (held outcome.now.registers 24) }
{
    let mut registers = [0; 16];
    registers.copy_from_slice(&outcome.registers[..16]);
    Ending {
        registers,
        fault: outcome.registers[24],
    }
}

impl<M: Memory> Bench<M> {
    /// Runs the program from the entry registers, and writes down each step.
    pub fn go(&mut self, visits: &mut [Visit]) -> Result<Tally, Refusal>
        ensures answer { answered_by Counts result ≡ answer (Go (length visits.old)) (view M.model self.old) }
        ensures after { view M.model self.new ≡ after (Go (length visits.old)) (view M.model self.old) }
        ensures visits { let new = visited (Go (length visits.old)) (view M.model self.old) in visits.new ≡ new ++ drop (length new) visits.old }
    {
        let Some(program) = &self.program else {
            return Err(Reason::NoneSeated.into());
        };
        let outcome = run(program, &mut self.memory, &self.entry, visits)?;
        self.last = Some(ending(&outcome));
        Ok(Tally {
            steps: outcome.steps,
            marks: outcome.marks,
        })
    }
}
