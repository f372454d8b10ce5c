// The routines of the cases, as instructions and as programs.
ghost use Rattle.std.specs.Prelude.{◌≡◌, IfOk};
ghost use Rattle.program.specs.Programs.{code_of};
ghost use Rattle.by_hand.specs.Routines.{instructions, source};
ghost use Rattle.by_hand.specs.ByHand.{ByHand};

use instructions::{Instruction, Op, Value};
use program::header::{Header, Kind, Table};
use program::program::Program;
use std::alloc::{AllocError, Global};

/// A routine of at most five instructions. An access is to table 0, which has four cells.
#[derive(Clone, Copy)]
pub enum Routine {
    /// Register 0 gets 7 or 9, by an if on register 1.
    Choose,
    /// A load at register 1.
    Lookup,
    /// A store at register 1.
    Update,
    /// The then arm of an if on register 1 writes register 2, by which the else arm loads.
    ArmWithConst,
    /// The same with an empty then arm.
    ArmWithoutConst,
    /// Each round loads at register 2, and then moves register 3 into it.
    Walk,
    /// A repeat of at most 999 rounds in another.
    Rounds,
    /// The same with an inner repeat of at most 1,000 rounds.
    TooManyRounds,
}

const SEVEN: Op = Op::Set {
    target: 0,
    value: Value::Const { word: 7 },
};

const NINE: Op = Op::Set {
    target: 0,
    value: Value::Const { word: 9 },
};

const ZERO_IN_2: Op = Op::Set {
    target: 2,
    value: Value::Const { word: 0 },
};

const LOAD_BY_1: Op = Op::Load {
    target: 0,
    index: 1,
    table: 0,
};

const LOAD_BY_2: Op = Op::Load {
    target: 0,
    index: 2,
    table: 0,
};

const STORE_BY_1: Op = Op::Store {
    from: 0,
    index: 1,
    table: 0,
};

const MOVE_3_TO_2: Op = Op::Set {
    target: 2,
    value: Value::Move { from: 3 },
};

const IF: Instruction = Instruction::If { condition: 1 };

const ELSE: Instruction = Instruction::Else;

const END: Instruction = Instruction::End;

const AGAIN: Instruction = Instruction::Again;

const REPEAT_3: Instruction = Instruction::Repeat { count: 1, most: 3 };

const REPEAT_999: Instruction = Instruction::Repeat {
    count: 1,
    most: 999,
};

const REPEAT_1000: Instruction = Instruction::Repeat {
    count: 1,
    most: 1000,
};

const CHOOSE: [Instruction; 5] = [
    IF,
    Instruction::Do { op: SEVEN },
    ELSE,
    Instruction::Do { op: NINE },
    END,
];

const LOOKUP: [Instruction; 1] = [Instruction::Do { op: LOAD_BY_1 }];

const UPDATE: [Instruction; 1] = [Instruction::Do { op: STORE_BY_1 }];

const ARM_WITH_CONST: [Instruction; 5] = [
    IF,
    Instruction::Do { op: ZERO_IN_2 },
    ELSE,
    Instruction::Do { op: LOAD_BY_2 },
    END,
];

const ARM_WITHOUT_CONST: [Instruction; 4] = [IF, ELSE, Instruction::Do { op: LOAD_BY_2 }, END];

const WALK: [Instruction; 4] = [
    REPEAT_3,
    Instruction::Do { op: LOAD_BY_2 },
    Instruction::Do { op: MOVE_3_TO_2 },
    AGAIN,
];

const ROUNDS: [Instruction; 4] = [REPEAT_999, REPEAT_999, AGAIN, AGAIN];

const TOO_MANY_ROUNDS: [Instruction; 4] = [REPEAT_999, REPEAT_1000, AGAIN, AGAIN];

impl Routine {
    /// Its instructions. What was worked out by hand of all routines stands here.
    #[tactic(auto, using(crate::proofs::ByHand::by_hand))]
    pub fn instructions(self) -> &'static [Instruction]
        ensures value { result.now ≡ instructions self }
        ensures by_hand { ByHand }
    {
        match self {
            Routine::Choose => &CHOOSE,
            Routine::Lookup => &LOOKUP,
            Routine::Update => &UPDATE,
            Routine::ArmWithConst => &ARM_WITH_CONST,
            Routine::ArmWithoutConst => &ARM_WITHOUT_CONST,
            Routine::Walk => &WALK,
            Routine::Rounds => &ROUNDS,
            Routine::TooManyRounds => &TOO_MANY_ROUNDS,
        }
    }

    /// It as a source, with table 0 secret or not, and bit i of `entry` where entry register i is secret.
    pub fn source(self, secret: bool, entry: u16, heap: Global) -> Result<Program, AllocError>
        ensures header { IfOk result (λ p. p.header ≡ source secret entry (instructions self)) }
        ensures code { IfOk result (λ p. code_of p ≡ instructions self) }
    {
        let list = self.instructions().to_vec(heap)?;
        let mut tables = [Table::UNUSED; 8];
        tables[0] = Table { length: 4, secret };
        let header = Header {
            kind: Kind::Source,
            tables,
            used: 1,
            count: list.len() as u16,
            secret_entry: entry,
        };
        Ok(Program::new(header, list))
    }
}
