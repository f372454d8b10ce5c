// The most steps that a program can make, and the most marks that it can leave on a memory.
#![tactic(auto)]

ghost use Rattle.std.specs.Prelude.{◌≡◌, ◌≤◌, map, length};
ghost use Rattle.machine.specs.Most.{each_step};
ghost use Rattle.program.specs.Programs.{code_of};
ghost use Rattle.execution.specs.Runs.{OverBy, CountsBy};
ghost use Rattle.counting.specs.Counting.{Sum, most_steps, mark_price, most_marks, costs, Countable};

use crate::pass::most;
use crate::price::{Price, TablePrice};
use instructions::Instruction;
use memory::{Access, Memory};
use program::program::Program;

mod open_bracket;
mod pass;
mod price;

// What can be counted is asked of code that is in no program yet, so that no type of a program has it.
/// The most steps of instructions that need not be in a program, held at 1,000,001.
pub fn most_steps_of(code: &[Instruction]) -> usize
    requires { Countable code.now }
    ensures { result ≡ most_steps code.now }
{
    most(
        code,
        &Price {
            step: 1,
            tables: [TablePrice { read: 0, write: 0 }; 8],
        },
    )
}

/// The most steps of a run, held at 1,000,001: the sum over the nested blocks of the program. Where
/// it is not held, every run is over after so many steps.
pub fn most_steps(program: &Program) -> usize
    ensures value { result ≡ most_steps (code_of program.now) }
    ensures sum { Sum each_step (code_of program.now) result }
    ensures ends { result ≤ 1000000 → OverBy (code_of program.now) result }
{
    most_steps_of(program.code())
}

// What a read and a write of each table cost.
fn costs<M: Memory>(memory: &M, program: &Program) -> [TablePrice; 8]
    ensures each { result ≡ map (costs (M.model memory.now).rules.cost) program.now.header.tables }
    ensures wide { length result ≡ 8 }
{
    program.header().tables.map(|table| {
        let len = usize::from(table.length);
        TablePrice {
            read: memory.cost(Access::Read, len),
            write: memory.cost(Access::Write, len),
        }
    })
}

/// The most marks that a run leaves on this memory, held at 1,000,001: the sum likewise, a load
/// counting what a read of its table costs, and a store what a write costs. Where it is not held,
/// no run leaves more.
pub fn most_marks<M: Memory>(program: &Program, memory: &M) -> usize
    ensures value { result ≡ most_marks (M.model memory.now).rules.cost program.now.header.tables (code_of program.now) }
    ensures sum { Sum (mark_price (M.model memory.now).rules.cost program.now.header.tables) (code_of program.now) result }
    ensures within { result ≤ 1000000 → CountsBy (mark_price (M.model memory.now).rules.cost program.now.header.tables) (code_of program.now) result }
{
    most(
        program.code(),
        &Price {
            step: 0,
            tables: costs(memory, program),
        },
    )
}
