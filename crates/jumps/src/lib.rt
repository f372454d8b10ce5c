// Where each bracket of a program jumps to, worked out once for a run.
#![tactic(auto)]

ghost use Rattle.std.specs.Prelude.{◌≡◌, ◌<◌};
ghost use Rattle.stack.specs.Held.{held};
ghost use Rattle.program.specs.Programs.{code_of};
ghost use Rattle.jumps.specs.Jumps.{Noted, Resolved};

use instructions::Instruction;
use program::program::Program;
use stack::Stack;

// One row serves ifs and repeats, and each reads only what its own kind needs: brackets pair, so an enum would have
// arms that never come.
/// A bracket that closes, as a pass from the end meets it: where an if that fails goes, where its
/// else goes, and where a repeat without rounds goes.
#[derive(Clone, Copy, Default)]
pub struct Closer {
    pub other: u16,
    pub close: u16,
    pub after: u16,
}

// Passes the instruction at `place`, backwards.
fn note(
    instruction: Instruction,
    place: usize,
    closers: &mut Stack<Closer>,
    jumps: &mut [u16; 3000],
)
    requires { place < 3000 }
    ensures { Noted instruction place (held closers.old) jumps.old (held closers.new) jumps.new }
{
    let here = place as u16;
    let closer = closers.top().unwrap_or_default();
    match instruction {
        Instruction::Do { .. } => {}
        Instruction::If { .. } => {
            jumps[place] = closer.other;
            closers.pop();
        }
        Instruction::Else => {
            jumps[place] = closer.close;
            closers.swap(Closer {
                other: here + 1,
                ..closer
            });
        }
        Instruction::Repeat { .. } => {
            jumps[place] = closer.after;
            closers.pop();
        }
        Instruction::End | Instruction::Again => {
            let _ = closers.push(Closer {
                other: here,
                close: here,
                after: here + 1,
            });
        }
    }
}

/// For each if the place that it goes to when its register is 0, for each else its end, and for
/// each repeat the place after its again.
pub fn resolve(program: &Program) -> [u16; 3000]
    ensures { Resolved (code_of program.now) result }
{
    // As long as the longest program, since nothing is allocated in a run; only an if, an else and a repeat
    // go by theirs, and other places keep a 0.
    let mut jumps = [0; 3000];
    let mut closers = Stack::new(Closer::default());
    for (place, instruction) in program.code().iter().enumerate().rev() {
        note(*instruction, place, &mut closers, &mut jumps);
    }
    jumps
}
