// Fields and instructions, turned into each other.
ghost use Rattle.std.specs.Prelude.{◌≡◌};
ghost use Rattle.instructions.specs.declared.Value.TheVariants.{Binary, Shift};
ghost use Rattle.instructions.specs.declared.Op.TheVariants.{Set, Pick, Load, Store};
ghost use Rattle.instructions.specs.declared.Instruction.TheVariants.{Do};
ghost use Rattle.fields.specs.Fields.{fields as fields_of};
ghost use Rattle.fields.specs.Codec.{decode, encode, encode_op, encode_set};

use crate::fields::Fields;
use instructions::{BinaryOp, Instruction, Op, Register, ShiftOp, Value};

fn set(target: Register, value: Value) -> Instruction
    ensures { result ≡ Do (Set target value) }
{
    let op = Op::Set { target, value };
    Instruction::Do { op }
}

fn binary(op: BinaryOp, target: Register, left: Register, right: Register) -> Instruction
    ensures { result ≡ Do (Set target (Binary op left right)) }
{
    set(target, Value::Binary { op, left, right })
}

fn shift(op: ShiftOp, target: Register, from: Register, by: u32) -> Instruction
    ensures { result ≡ Do (Set target (Shift op from by)) }
{
    set(target, Value::Shift { op, from, by })
}

fn pick(target: Register, condition: Register, from: Register) -> Instruction
    ensures { result ≡ Do (Pick target condition from) }
{
    let op = Op::Pick {
        target,
        condition,
        from,
    };
    Instruction::Do { op }
}

fn load(target: Register, index: Register, table: u8) -> Instruction
    ensures { result ≡ Do (Load target index table) }
{
    let op = Op::Load {
        target,
        index,
        table,
    };
    Instruction::Do { op }
}

fn store(from: Register, index: Register, table: u8) -> Instruction
    ensures { result ≡ Do (Store from index table) }
{
    let op = Op::Store { from, index, table };
    Instruction::Do { op }
}

// The ops' numbers are those of an image: an enum of them would be a third list of ops, beside
// Instruction and ROWS.
/// The instruction of these fields.
impl From<Fields> for Instruction {
    ghost from_gives = { λ fields i. i ≡ decode fields };

    fn from(fields: Fields) -> Instruction {
        let Fields { op, d, a, b, k } = fields;
        match op {
            0 => set(d, Value::Const { word: k }),
            1 => set(d, Value::Move { from: a }),
            2 => binary(BinaryOp::Add, d, a, b),
            3 => binary(BinaryOp::Sub, d, a, b),
            4 => binary(BinaryOp::Mul, d, a, b),
            5 => binary(BinaryOp::And, d, a, b),
            6 => binary(BinaryOp::Or, d, a, b),
            7 => binary(BinaryOp::Xor, d, a, b),
            8 => shift(ShiftOp::Left, d, a, k),
            9 => shift(ShiftOp::Right, d, a, k),
            10 => shift(ShiftOp::Rotate, d, a, k),
            11 => binary(BinaryOp::Below, d, a, b),
            12 => binary(BinaryOp::Same, d, a, b),
            13 => pick(d, a, b),
            14 => load(d, a, b),
            15 => store(d, a, b),
            16 => Instruction::If { condition: a },
            17 => Instruction::Else,
            18 => Instruction::End,
            19 => Instruction::Repeat { count: a, most: k },
            _ => Instruction::Again,
        }
    }
}

fn five(op: u8, d: u8, a: u8, b: u8, k: u32) -> Fields
    ensures { result ≡ fields_of op d a b k }
{
    Fields { op, d, a, b, k }
}

/// The fields of an instruction.
impl From<Instruction> for Fields {
    ghost from_gives = { λ i fields. fields ≡ encode i };

    fn from(instruction: Instruction) -> Fields {
        match instruction {
            Instruction::Do { op } => op_fields(op),
            Instruction::If { condition } => five(16, 0, condition, 0, 0),
            Instruction::Else => five(17, 0, 0, 0, 0),
            Instruction::End => five(18, 0, 0, 0, 0),
            Instruction::Repeat { count, most } => five(19, 0, count, 0, most),
            Instruction::Again => five(20, 0, 0, 0, 0),
        }
    }
}

fn op_fields(op: Op) -> Fields
    ensures { result ≡ encode_op op }
{
    match op {
        Op::Set { target, value } => set_fields(target, value),
        Op::Pick {
            target,
            condition,
            from,
        } => five(13, target, condition, from, 0),
        Op::Load {
            target,
            index,
            table,
        } => five(14, target, index, table, 0),
        Op::Store { from, index, table } => five(15, from, index, table, 0),
    }
}

fn set_fields(d: Register, value: Value) -> Fields
    ensures { result ≡ encode_set d value }
{
    match value {
        Value::Const { word } => five(0, d, 0, 0, word),
        Value::Move { from } => five(1, d, from, 0, 0),
        Value::Binary { op, left, right } => five(op as u8, d, left, right, 0),
        Value::Shift { op, from, by } => five(op as u8, d, from, 0, by),
    }
}
