// What instructions compute, on words of 32 bits.
ghost use Rattle.std.specs.Prelude.{◌≡◌, ◌<◌};
ghost use Rattle.machine.specs.Fits.{FitValue};
ghost use Rattle.machine.specs.Words.{calc, turned, value_of};
ghost use Rattle.machine.specs.States.{held};

use instructions::{BinaryOp, ShiftOp, Value};

/// What two words come to.
pub fn binary(op: BinaryOp, x: u32, y: u32) -> u32
    ensures { result ≡ calc op x y }
{
    match op {
        BinaryOp::Add => x.wrapping_add(y),
        BinaryOp::Sub => x.wrapping_sub(y),
        BinaryOp::Mul => x.wrapping_mul(y),
        BinaryOp::And => x & y,
        BinaryOp::Or => x | y,
        BinaryOp::Xor => x ^ y,
        BinaryOp::Below => u32::from(x < y),
        BinaryOp::Same => u32::from(x == y),
    }
}

/// A word shifted by so many bits.
pub fn shift(op: ShiftOp, x: u32, by: u32) -> u32
    requires { by < 32 }
    ensures { result ≡ turned op x by }
{
    match op {
        ShiftOp::Left => x << by,
        ShiftOp::Right => x >> by,
        ShiftOp::Rotate => x.rotate_left(by),
    }
}

// Its bounds are asked: values stand plain in a list of the caller's, and a program has them within bounds.
/// A value as the registers give it.
pub fn value(what: Value, registers: &[u32; 32]) -> u32
    requires { FitValue 32 what }
    ensures { result ≡ value_of what (held registers.now) }
{
    match what {
        Value::Const { word } => word,
        Value::Move { from } => registers[usize::from(from)],
        Value::Binary { op, left, right } => binary(
            op,
            registers[usize::from(left)],
            registers[usize::from(right)],
        ),
        Value::Shift { op, from, by } => shift(op, registers[usize::from(from)], by),
    }
}
