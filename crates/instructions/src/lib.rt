// The instruction set. Words have 32 bits.
#![tactic(auto)]

/// A register's number: 0 to 15 in a source, 0 to 31 in a converted program.
pub type Register = u8;

/// What two registers come to: a number modulo 2^32, or 1 and 0 for a test. The discriminant is the
/// op's number in an image.
#[derive(Clone, Copy, PartialEq, Eq, Debug)]
pub enum BinaryOp {
    Add = 2,
    Sub = 3,
    Mul = 4,
    And = 5,
    Or = 6,
    Xor = 7,
    Below = 11,
    Same = 12,
}

/// How a register is shifted. The discriminant is the op's number in an image.
#[derive(Clone, Copy, PartialEq, Eq, Debug)]
pub enum ShiftOp {
    Left = 8,
    Right = 9,
    Rotate = 10,
}

/// A word computed from registers alone.
#[derive(Clone, Copy, PartialEq, Eq, Debug)]
pub enum Value {
    Const {
        word: u32,
    },
    Move {
        from: Register,
    },
    Binary {
        op: BinaryOp,
        left: Register,
        right: Register,
    },
    Shift {
        op: ShiftOp,
        from: Register,
        by: u32,
    },
}

/// What goes on to the next place.
#[derive(Clone, Copy, PartialEq, Eq, Debug)]
pub enum Op {
    /// The target gets the value.
    Set {
        target: Register,
        value: Value,
    },
    /// The target gets `from` where the condition is not 0, and stays otherwise.
    Pick {
        target: Register,
        condition: Register,
        from: Register,
    },
    /// The target gets the cell of the table at the index.
    Load {
        target: Register,
        index: Register,
        table: u8,
    },
    /// The cell of the table at the index gets `from`.
    Store {
        from: Register,
        index: Register,
        table: u8,
    },
}

/// An instruction: an op, or a bracket. An again is what stands where nothing is written yet.
#[derive(Clone, Copy, PartialEq, Eq, Debug, Default)]
pub enum Instruction {
    Do { op: Op },
    If { condition: Register },
    Else,
    End,
    /// As many rounds as the register says, and at most `most`.
    Repeat { count: Register, most: u32 },
    #[default]
    Again,
}
