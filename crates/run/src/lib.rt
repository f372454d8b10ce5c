// A program's run on a memory.
#![tactic(auto)]

ghost use Rattle.std.specs.Prelude.{◌≡◌, [], length};
ghost use Rattle.stack.specs.Held.{held as opened};
ghost use Rattle.machine.specs.States.{held};
ghost use Rattle.program.specs.Programs.{code_of};
ghost use Rattle.execution.specs.Runs.{RunsEnd};
ghost use Rattle.run.specs.Run.{Runnable, Ended, Ran, Tested, ReadNested, finish};

use counting::{most_marks, most_steps};
use execution::is_over;
use machine::places::at;
use machine::visit::{Choice, Visit};
use memory::Memory;
use program::program::Program;
use program::refusal::{Reason, Refusal};
use repeats::Repeats;
use stepping::layout::Layout;
use stepping::state::State;
use windows::cells;

/// The most steps that a run may need.
const MOST_STEPS: usize = 1_000_000;

/// What a run answers: the registers, how many steps it made and how many marks it left, and the
/// place of a fault if it stopped at one.
#[derive(Clone, Copy)]
pub struct Outcome {
    pub registers: [u32; 32],
    pub steps: usize,
    pub marks: usize,
    pub fault: Option<u16>,
}

// Registers 0 to 15 as given, all others 0, and no repeat open.
fn started(entry: &[u32; 16]) -> State
    ensures same { held result.registers ≡ held entry.now }
    ensures wide { length result.registers ≡ 32 }
    ensures none { opened result.repeats.open ≡ [] }
{
    let mut registers = [0; 32];
    registers[..16].copy_from_slice(entry);
    State {
        registers,
        repeats: Repeats::new(),
    }
}

// Whether the run may begin, with room for so many visits.
fn test<M: Memory>(program: &Program, memory: &M, room: usize) -> Result<(), Refusal>
    ensures { Tested program.now.header.tables (code_of program.now) (M.model memory.now) room result }
{
    let steps = most_steps(program);
    if steps > MOST_STEPS {
        return Err(Reason::TooManySteps.into());
    }
    if cells(program) > memory.size() {
        return Err(Reason::MemoryTooSmall.into());
    }
    if steps > room {
        return Err(Reason::NoRoomForVisits.into());
    }
    if most_marks(program, memory) > memory.free() {
        return Err(Reason::NoFreeMarks.into());
    }
    Ok(())
}

// The run itself: every access is one that the memory does not deny.
fn go<M: Memory>(
    program: &Program,
    memory: &mut M,
    entry: &[u32; 16],
    visits: &mut [Visit],
) -> Outcome
    requires { Runnable program.now.header.tables (code_of program.now) (M.model memory.old) (length visits.old) }
    ensures { Ended program.now.header.tables (code_of program.now) (finish program.now.header.tables (code_of program.now) entry.now (M.model memory.old).cells) (M.model memory.old) (M.model memory.new) visits.old visits.new result }
{
    let layout = Layout::new(program);
    let count = usize::from(program.header().count);
    let before = memory.marks();
    let mut state = started(entry);
    let mut place = 0;
    let mut steps = 0;
    'turns: while !is_over(place, count) {
        let moved = state.step(at(program, place), place, &layout, memory);
        // The list is the caller's; steps are counted, since they are answered, and places jump.
        visits[steps] = Visit {
            place: place as u16,
            choice: moved.choice,
        };
        steps += 1;
        // Two ends, each with its own fact: at a fault, and past the last place.
        if moved.choice == Choice::Fault {
            return Outcome {
                registers: state.registers,
                steps,
                marks: memory.marks() - before,
                fault: Some(place as u16),
            };
        }
        place = moved.place;
    }
    Outcome {
        registers: state.registers,
        steps,
        marks: memory.marks() - before,
        fault: None,
    }
}

/// Runs a program of either kind from these entry registers, and writes down each step. It refuses,
/// and then changes nothing, a program that may need more than 1,000,000 steps, a memory smaller
/// than the tables, a visit list shorter than the most steps, and a memory with less room for marks
/// than the most marks.
pub fn run<M: Memory>(
    program: &Program,
    memory: &mut M,
    entry: &[u32; 16],
    visits: &mut [Visit],
) -> Result<Outcome, Refusal>
    ensures ran { Ran program.now.header.tables (code_of program.now) entry.now (M.model memory.old) (M.model memory.new) visits.old visits.new result }
    ensures nested { ReadNested program.now.header.tables (code_of program.now) entry.now (M.model memory.old).cells }
    ensures ends { RunsEnd }
{
    test(program, memory, visits.len())?;
    Ok(go(program, memory, entry, visits))
}
