// What one place adds to the sets.
ghost use Rattle.std.specs.Prelude.{◌≡◌, ℕ, suc, ◌+◌, ◌<◌, Bool, true, ◌||◌, [], ◌∷◌, length};
ghost use Rattle.instructions.specs.declared.Instruction.TheVariants.{Do};
ghost use Rattle.program.specs.Bounds.{bound_value, bound_op, bound};
ghost use Rattle.labels.specs.Kinds.{secrecy};
ghost use Rattle.labels.specs.Rules.{Each, read_by, written, leaves};
ghost use Rattle.labels.specs.Passes.{Ahead, raised, passed, along, flow};
ghost use Rattle.plan.specs.Planned.{Below};
ghost use Rattle.labels.specs.Sets.{bits, sets, secret_tables, Grew};

use crate::ways::along_ways;
use instructions::{Instruction, Op, Value};
use labels::sets::{has, joined, with};
use labels::way::Way;
use masks::masks::Masks;
use program::header::Table;

fn read_by(value: Value, set: u16) -> bool
    ensures { result ≡ read_by secrecy value (bits set) }
{
    match value {
        Value::Const { .. } => false,
        Value::Move { from } | Value::Shift { from, .. } => has(set, from),
        Value::Binary { left, right, .. } => has(set, left) || has(set, right),
    }
}

// Whether a target is secret after it was written.
fn written(masked: bool, held: bool, read: bool) -> bool
    ensures { result ≡ written secrecy masked masked held read }
{
    masked || read
}

// What leaves an op. Instructions stand plain in a list of the caller's, so their bounds are asked at each
// function, and come from the program's invariant.
fn leaving(op: Op, set: u16, masked: bool, tables: &[Table; 8]) -> u16
    requires { bound_op 16 8 op ≡ true }
    ensures { bits result ≡ leaves secrecy (secret_tables tables.now) masked op (bits set) }
{
    match op {
        Op::Set { target, value } => {
            let held = has(set, target);
            with(set, target, written(masked, held, read_by(value, set)))
        }
        Op::Pick {
            target,
            condition,
            from,
        } => {
            let held = has(set, target);
            let read = held || has(set, condition) || has(set, from);
            with(set, target, written(masked, held, read))
        }
        Op::Load {
            target,
            index,
            table,
        } => {
            let held = has(set, target);
            let read = has(set, index) || tables[usize::from(table)].secret;
            with(set, target, written(masked, held, read))
        }
        Op::Store { .. } => set,
    }
}

// How a list of sets grew speaks of before and after, which no invariant of one value can: so it is
// said at each function.

// Puts a set into that at `place`, and says whether that was news.
fn raise(list: &mut [u16], place: usize, set: u16) -> bool
    requires { place < length list.old }
    ensures sets { sets list.new ≡ raised secrecy (sets list.old) place (bits set) }
    ensures grew { Grew result list.old list.new }
{
    let old = list[place];
    let new = joined(old, set);
    list[place] = new;
    new != old
}

// Along one way.
fn carry(list: &mut [u16], way: Way) -> bool
    requires { (way.from < length list.old) × (way.to < length list.old) }
    ensures sets { sets list.new ≡ passed secrecy way (sets list.old) }
    ensures grew { Grew result list.old list.new }
{
    let set = list[way.from];
    raise(list, way.to, set)
}

// Along ways, one after another. Each call has a list of its own length.
#[inline(always)]
pub(crate) fn along(list: &mut [u16], ways: &[Way]) -> bool
    requires { Each (Below (length list.old)) ways.now }
    ensures sets { sets list.new ≡ along secrecy ways.now (sets list.old) }
    ensures grew { Grew result list.old list.new }
{
    let mut changed = false;
    for way in ways {
        changed |= carry(list, *way);
    }
    changed
}

fn flow_op(op: Op, masks: &Masks, list: &mut [u16], place: usize, tables: &[Table; 8]) -> bool
    requires { (bound_op 16 8 op ≡ true) × (place + 1 < length list.old) }
    ensures sets { sets list.new ≡ flow secrecy (secret_tables tables.now) masks.now.openings place (Do op) (sets list.old) }
    ensures grew { Grew result list.old list.new }
{
    let set = leaving(op, list[place], masks.masked(), tables);
    raise(list, place + 1, set)
}

// Raises the sets as the instruction at `place` asks, and says whether any changed.
pub(crate) fn flow(
    instruction: Instruction,
    masks: &Masks,
    list: &mut [u16],
    place: usize,
    tables: &[Table; 8],
) -> bool
    requires { (bound 16 8 instruction ≡ true) × ((Ahead place masks.now.openings) × (place + 1 < length list.old)) }
    ensures sets { sets list.new ≡ flow secrecy (secret_tables tables.now) masks.now.openings place instruction (sets list.old) }
    ensures grew { Grew result list.old list.new }
{
    match instruction {
        Instruction::Do { op } => flow_op(op, masks, list, place, tables),
        Instruction::If { .. }
        | Instruction::Else
        | Instruction::End
        | Instruction::Repeat { .. }
        | Instruction::Again => along_ways(masks, instruction, list, place),
    }
}
