// Which fields each op uses, and their bounds.
ghost use Rattle.std.specs.Prelude.{◌≡◌, ◌<◌, ◌≤◌, MatchOption};
ghost use Rattle.fields.specs.Rows.{admits, row_of};

/// What a field may hold.
#[derive(Clone, Copy)]
pub enum Bound {
    /// Zero, since the op does not use the field.
    Unused,
    /// The number of a register that the program has.
    Register,
    /// The number of a table that the program has.
    Table,
    /// Any word.
    Word,
    /// A distance to shift by, 0 to 31.
    Shift,
    /// The most rounds of a repeat, 1 to 1,024.
    Rounds,
}

/// The fields of one op.
#[derive(Clone, Copy)]
pub struct Row {
    pub d: Bound,
    pub a: Bound,
    pub b: Bound,
    pub k: Bound,
}

/// How many registers and tables a program has.
#[derive(Clone, Copy)]
pub struct Limits {
    pub registers: u8,
    pub tables: u8,
}

const CONST: Row = Row {
    d: Bound::Register,
    a: Bound::Unused,
    b: Bound::Unused,
    k: Bound::Word,
};

const MOVE: Row = Row {
    d: Bound::Register,
    a: Bound::Register,
    b: Bound::Unused,
    k: Bound::Unused,
};

const THREE: Row = Row {
    d: Bound::Register,
    a: Bound::Register,
    b: Bound::Register,
    k: Bound::Unused,
};

const SHIFT: Row = Row {
    d: Bound::Register,
    a: Bound::Register,
    b: Bound::Unused,
    k: Bound::Shift,
};

const ACCESS: Row = Row {
    d: Bound::Register,
    a: Bound::Register,
    b: Bound::Table,
    k: Bound::Unused,
};

const IF: Row = Row {
    d: Bound::Unused,
    a: Bound::Register,
    b: Bound::Unused,
    k: Bound::Unused,
};

const REPEAT: Row = Row {
    d: Bound::Unused,
    a: Bound::Register,
    b: Bound::Unused,
    k: Bound::Rounds,
};

/// The row of an op that uses no field.
pub const BARE: Row = Row {
    d: Bound::Unused,
    a: Bound::Unused,
    b: Bound::Unused,
    k: Bound::Unused,
};

const ROWS: [Row; 21] = [
    CONST, MOVE, THREE, THREE, THREE, THREE, THREE, THREE, SHIFT, SHIFT, SHIFT, THREE, THREE,
    THREE, ACCESS, ACCESS, IF, BARE, BARE, REPEAT, BARE,
];

impl Bound {
    pub fn admits(self, limits: Limits, value: u32) -> bool
        ensures { result ≡ admits self limits value }
    {
        match self {
            Bound::Unused => value == 0,
            Bound::Register => value < u32::from(limits.registers),
            Bound::Table => value < u32::from(limits.tables),
            Bound::Word => true,
            Bound::Shift => value < 32,
            Bound::Rounds => (1..=1024).contains(&value),
        }
    }
}

/// The row of an op, if there is such an op.
pub fn row_of(op: u8) -> Option<Row>
    ensures { MatchOption result (21 ≤ op) (λ row. (op < 21) × (row ≡ row_of op)) }
{
    ROWS.get(usize::from(op)).copied()
}
