// What a run holds, and how a step changes it.
ghost use Rattle.std.specs.Prelude.{◌<◌};
ghost use Rattle.stack.specs.Held.{held};
ghost use Rattle.machine.specs.Fits.{Fit};
ghost use Rattle.stepping.specs.Turns.{Turned, Ready};

use crate::layout::Layout;
use crate::op::{OutsideTable, perform};
use instructions::Instruction;
use machine::visit::Choice;
use memory::Memory;
use repeats::{Move, Repeats};

/// The registers, and the repeats that are open.
#[derive(Drop)]
pub struct State {
    pub registers: [u32; 32],
    pub repeats: Repeats,
}

impl State {
    // Bounds are asked of what stands plain in a list of the caller's.
    /// Takes the instruction at `place`: changes registers, open repeats and memory, and says where
    /// the run goes and with what choice.
    pub fn step<M: Memory>(
        &mut self,
        instruction: Instruction,
        place: usize,
        layout: &Layout,
        memory: &mut M,
    ) -> Move
        requires fits { Fit 32 8 instruction }
        requires ready { Ready layout.now.windows (held self.old.repeats.open) self.old.registers (M.model memory.old) instruction }
        requires short { place < 3000 }
        ensures { Turned layout.now.windows layout.now.jumps place (held self.old.repeats.open) self.old.registers (M.model memory.old) result (held self.new.repeats.open) self.new.registers (M.model memory.new) instruction }
    {
        let next = place + 1;
        let target = usize::from(layout.jumps[place]);
        match instruction {
            Instruction::Do { op } => {
                match perform(op, &layout.windows, &mut self.registers, memory) {
                    Ok(()) => Move::new(next, Choice::Onward),
                    Err(OutsideTable) => Move::new(place, Choice::Fault),
                }
            }
            Instruction::If { condition } => {
                if self.registers[usize::from(condition)] == 0 {
                    Move::new(target, Choice::Past)
                } else {
                    Move::new(next, Choice::Inward)
                }
            }
            Instruction::Else => Move::new(target, Choice::Onward),
            Instruction::End => Move::new(next, Choice::Onward),
            Instruction::Repeat { count, most } => {
                let rounds = self.registers[usize::from(count)].min(most);
                self.repeats.begin(rounds, next, target)
            }
            Instruction::Again => self.repeats.back(next),
        }
    }
}
