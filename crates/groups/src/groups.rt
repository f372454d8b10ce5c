// What each op becomes, and what a secret if and its else become.
ghost use Rattle.std.specs.Prelude.{◌≡◌, ℕ, ◌+◌, ◌<◌, ◌≤◌, true, [], ◌∷◌, ◌++◌, length};
ghost use Rattle.program.specs.Bounds.{bound_op};
ghost use Rattle.instructions.specs.declared.Op.{Op};
ghost use Rattle.instructions.specs.declared.Op.TheVariants.{Set};
ghost use Rattle.instructions.specs.declared.Value.TheVariants.{Const, Binary};
ghost use Rattle.groups.specs.Groups.{straight, mask_at, lengths, op_group, masked, kept, pick_group, and_mask, in_range, first_bad, guard, load_end, store_end, if_group, else_group};

use crate::output::Output;
use instructions::{BinaryOp, Op, Register, Value};
use program::header::Table;

// How much room a group asks for differs from group to group, so it is said at each, and not by a type. The output
// and the mask stay two: many groups go into one output, each behind a mask of its own place.

/// A source place, and the register that masks it, where there is one.
#[derive(Clone, Copy)]
pub struct Site {
    pub place: usize,
    pub mask: Option<Register>,
    ghost short: { place < 200 },
}

// What a load or a store goes to: the cell of a table of so many cells, at the index.
#[derive(Clone, Copy)]
struct Access {
    table: u8,
    cells: u16,
    index: Register,
}

fn constant(target: Register, word: u32) -> Op
    ensures { result ≡ Set target (Const word) }
{
    let value = Value::Const { word };
    Op::Set { target, value }
}

fn binary(target: Register, op: BinaryOp, left: Register, right: Register) -> Op
    ensures { result ≡ Set target (Binary op left right) }
{
    let value = Value::Binary { op, left, right };
    Op::Set { target, value }
}

// An op with its target. Behind a mask it goes into 25, and from there where the mask is not 0.
fn masked<F: FnOnce(Register) -> Op>(
    out: &mut Output,
    mask: Option<Register>,
    target: Register,
    op: F,
)
    requires room { length out.old + 2 ≤ 3000 }
    requires callable { F.IsAlwaysCallable op }
    ensures { (f : ℕ → Op) → ((r : ℕ) → r < 256 → (o : Op) → F.post op r o → o ≡ f r) → out.new ≡ out.old ++ straight (masked mask f target) }
{
    match mask {
        None => out.put(&[op(target)]),
        Some(mask) => out.put(&[
            op(25),
            Op::Pick {
                target,
                condition: mask,
                from: 25,
            },
        ]),
    }
}

// Behind a mask 25 gets what a register has.
fn kept(out: &mut Output, mask: Option<Register>, from: Register)
    requires { length out.old + 1 ≤ 3000 }
    ensures { out.new ≡ out.old ++ straight (kept mask from) }
{
    if mask.is_some() {
        out.put(&[Op::Set {
            target: 25,
            value: Value::Move { from },
        }]);
    }
}

// A pick behind a mask is tried in 25, on what its target has.
fn pick_group(
    out: &mut Output,
    mask: Option<Register>,
    target: Register,
    condition: Register,
    from: Register,
)
    requires { length out.old + 3 ≤ 3000 }
    ensures { out.new ≡ out.old ++ straight (pick_group mask target condition from) }
{
    kept(out, mask, target);
    masked(
        out,
        mask,
        target,
        |target| Op::Pick {
            target,
            condition,
            from,
        },
    );
}

// and x,x with the mask, where there is one.
fn and_mask(out: &mut Output, mask: Option<Register>, x: Register)
    requires { length out.old + 1 ≤ 3000 }
    ensures { out.new ≡ out.old ++ straight (and_mask mask x) }
{
    if let Some(mask) = mask {
        out.put(&[binary(x, BinaryOp::And, x, mask)]);
    }
}

// 25 tells whether the index is good, and 26 is the index or 0.
fn in_range(out: &mut Output, cells: u16, index: Register)
    requires { length out.old + 4 ≤ 3000 }
    ensures { out.new ≡ out.old ++ straight (in_range cells index) }
{
    out.put(&[
        constant(25, u32::from(cells)),
        binary(25, BinaryOp::Below, index, 25),
        constant(26, 0),
        Op::Pick {
            target: 26,
            condition: 25,
            from: index,
        },
    ]);
}

// 27 tells that the index is bad and no bad one came before.
fn first_bad(out: &mut Output)
    requires { length out.old + 4 ≤ 3000 }
    ensures { out.new ≡ out.old ++ straight first_bad }
{
    out.put(&[
        constant(27, 0),
        binary(28, BinaryOp::Same, 24, 27),
        binary(27, BinaryOp::Same, 25, 27),
        binary(27, BinaryOp::And, 27, 28),
    ]);
}

fn access_to(tables: &[Table; 8], table: u8, index: Register) -> Access
    requires { table < 8 }
    ensures table { result.table ≡ table }
    ensures cells { result.cells ≡ lengths tables.now table }
    ensures index { result.index ≡ index }
{
    Access {
        table,
        cells: tables[usize::from(table)].length,
        index,
    }
}

// The beginning of a load or store: 24 keeps the first bad place.
fn guard(out: &mut Output, site: Site, access: Access)
    requires room { length out.old + 11 ≤ 3000 }
    ensures { out.new ≡ out.old ++ straight (guard site.mask access.cells site.place access.index) }
{
    in_range(out, access.cells, access.index);
    first_bad(out);
    and_mask(out, site.mask, 27);
    out.put(&[
        constant(28, site.place as u32 + 1),
        Op::Pick {
            target: 24,
            condition: 27,
            from: 28,
        },
    ]);
}

// A load goes by the index in 26.
fn load_group(out: &mut Output, site: Site, access: Access, target: Register)
    requires room { length out.old + 15 ≤ 3000 }
    ensures { out.new ≡ out.old ++ straight (guard site.mask access.cells site.place access.index ++ load_end site.mask target access.table) }
{
    guard(out, site, access);
    let table = access.table;
    masked(
        out,
        site.mask,
        target,
        |target| Op::Load {
            target,
            index: 26,
            table,
        },
    );
}

// A store goes by the index in 26: where 25 is 0, the cell gets what it had.
fn store_group(out: &mut Output, site: Site, access: Access, from: Register)
    requires room { length out.old + 15 ≤ 3000 }
    ensures { out.new ≡ out.old ++ straight (guard site.mask access.cells site.place access.index ++ store_end site.mask from access.table) }
{
    guard(out, site, access);
    and_mask(out, site.mask, 25);
    let table = access.table;
    out.put(&[
        Op::Load {
            target: 27,
            index: 26,
            table,
        },
        Op::Pick {
            target: 27,
            condition: 25,
            from,
        },
        Op::Store {
            from: 27,
            index: 26,
            table,
        },
    ]);
}

/// A secret if by register `a`, where `own` is the mask that it opens.
pub fn if_group(out: &mut Output, mask: Option<Register>, own: Register, a: Register)
    requires { length out.old + 4 ≤ 3000 }
    ensures { out.new ≡ out.old ++ straight (if_group mask own a) }
{
    out.put(&[
        constant(25, 0),
        binary(26, BinaryOp::Same, a, 25),
        binary(own, BinaryOp::Same, 26, 25),
    ]);
    and_mask(out, mask, own);
}

/// The else of a secret if.
pub fn else_group(out: &mut Output, mask: Option<Register>, own: Register)
    requires { length out.old + 2 ≤ 3000 }
    ensures { out.new ≡ out.old ++ straight (else_group mask own) }
{
    match mask {
        None => out.put(&[constant(25, 1), binary(own, BinaryOp::Xor, own, 25)]),
        Some(m) => out.put(&[binary(own, BinaryOp::Xor, own, m)]),
    }
}

/// The register that masks a place with so many secret ifs around.
pub fn mask_at(secrets: u8) -> Option<Register>
    requires { secrets ≤ 8 }
    ensures { result ≡ mask_at secrets }
{
    if secrets == 0 {
        None
    } else {
        Some(15 + secrets)
    }
}

// Ops stand plain in a list of the caller's, so their bounds are asked here and come from the program.
/// Writes what an op at a source place becomes.
pub fn op_group(out: &mut Output, op: Op, site: Site, tables: &[Table; 8])
    requires room { length out.old + 15 ≤ 3000 }
    requires bound { bound_op 16 8 op ≡ true }
    ensures { out.new ≡ out.old ++ straight (op_group (lengths tables.now) site.mask site.place op) }
{
    match op {
        Op::Set { target, value } => {
            masked(out, site.mask, target, |target| Op::Set { target, value })
        }
        Op::Pick {
            target,
            condition,
            from,
        } => pick_group(out, site.mask, target, condition, from),
        Op::Load {
            target,
            index,
            table,
        } => load_group(out, site, access_to(tables, table, index), target),
        Op::Store { from, index, table } => {
            store_group(out, site, access_to(tables, table, index), from)
        }
    }
}
