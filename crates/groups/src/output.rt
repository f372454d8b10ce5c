// The instructions written so far.
ghost use Rattle.std.specs.Prelude.{◌≡◌, ℕ, ◌+◌, ◌<◌, ◌≤◌, [], ◌∷◌, ◌++◌, length};
ghost use Rattle.groups.specs.Groups.{straight};

use arrayvec::ArrayVec;
use instructions::{Instruction, Op};
use std::marker::Model;

/// The instructions written so far, which a contract sees as a list. They lie in the value itself,
/// since nothing here allocates.
#[derive(Drop)]
pub struct Output {
    instructions: ArrayVec<Instruction, 3000>,
}

impl Model for Output {
    ghost use Rattle.std.specs.Prelude.{List};
    ghost use Rattle.instructions.specs.declared.Instruction.{Instruction};

    ghost Value = { List Instruction };

    ghost view = { λ a. a.instructions.items };
}

impl Output {
    /// Nothing is written yet.
    pub fn new() -> Output
        ensures { result ≡ [] }
    {
        Output {
            instructions: ArrayVec::new(),
        }
    }

    /// Writes one instruction.
    pub fn copy(&mut self, instruction: Instruction)
        requires { length self.old + 1 ≤ 3000 }
        ensures { self.new ≡ self.old ++ instruction ∷ [] }
    {
        self.instructions.push(instruction);
    }

    /// Writes ops.
    pub fn put(&mut self, ops: &[Op])
        requires { length self.old + length ops.now ≤ 3000 }
        ensures { self.new ≡ self.old ++ straight ops.now }
    {
        for op in ops {
            self.copy(Instruction::Do { op: *op });
        }
    }

    /// What is written.
    pub fn as_slice(&self) -> &[Instruction]
        ensures value { result.now ≡ self.now }
        ensures few { length self.now ≤ 3000 }
    {
        self.instructions.as_slice()
    }
}
