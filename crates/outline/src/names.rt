// What ops are called. They are functions and no `Display`: a name is only the first word of what
// shows an instruction, which the listing writes.
ghost use Rattle.std.specs.Prelude.{◌≡◌};
ghost use Rattle.outline.specs.Names.{name_of, op_name, value_name, binary_name, shift_name};

use instructions::{BinaryOp, Instruction, Op, ShiftOp, Value};

/// The name of an instruction's op.
pub fn name_of(instruction: Instruction) -> &'static str
    ensures { result.now ≡ name_of instruction }
{
    match instruction {
        Instruction::Do { op } => op_name(op),
        Instruction::If { .. } => "if",
        Instruction::Else => "else",
        Instruction::End => "end",
        Instruction::Repeat { .. } => "repeat",
        Instruction::Again => "again",
    }
}

fn op_name(op: Op) -> &'static str
    ensures { result.now ≡ op_name op }
{
    match op {
        Op::Set { value, .. } => value_name(value),
        Op::Pick { .. } => "pick",
        Op::Load { .. } => "load",
        Op::Store { .. } => "store",
    }
}

fn value_name(value: Value) -> &'static str
    ensures { result.now ≡ value_name value }
{
    match value {
        Value::Const { .. } => "const",
        Value::Move { .. } => "move",
        Value::Binary { op, .. } => binary_name(op),
        Value::Shift { op, .. } => shift_name(op),
    }
}

fn binary_name(op: BinaryOp) -> &'static str
    ensures { result.now ≡ binary_name op }
{
    match op {
        BinaryOp::Add => "add",
        BinaryOp::Sub => "sub",
        BinaryOp::Mul => "mul",
        BinaryOp::And => "and",
        BinaryOp::Or => "or",
        BinaryOp::Xor => "xor",
        BinaryOp::Below => "below",
        BinaryOp::Same => "same",
    }
}

fn shift_name(op: ShiftOp) -> &'static str
    ensures { result.now ≡ shift_name op }
{
    match op {
        ShiftOp::Left => "shl",
        ShiftOp::Right => "shr",
        ShiftOp::Rotate => "rotl",
    }
}
