// What each place of a source becomes.
ghost use Rattle.std.specs.Prelude.{◌≡◌, ℕ, ◌+◌, ◌<◌, ◌≤◌, Bool, true, [], ◌∷◌, ◌++◌, length, if◌then◌else◌};
ghost use Rattle.instructions.specs.declared.Instruction.TheVariants.{If, Else, End};
ghost use Rattle.program.specs.Bounds.{bound};
ghost use Rattle.labels.specs.Sets.{sets};
ghost use Rattle.masks.specs.Counts.{secrets_of};
ghost use Rattle.groups.specs.Groups.{lengths};
ghost use Rattle.conversion.specs.Conversion.{secret_if, becomes, convert};

use crate::labelled::Labelled;
use groups::groups::{Site, else_group, if_group, mask_at, op_group};
use groups::output::Output;
use instructions::{Instruction, Register};
use labels::sets::has;
use masks::masks::Masks;
use program::opening::Marked;

// Room for the longest group is asked at each, since it shrinks with what is written. The output and the masks are
// both lent, and a place changes one of them at most: together they would be borrowed where one is needed.

fn if_place(out: &mut Output, masks: &Masks, condition: Register, secret: bool)
    requires { length out.old + 15 ≤ 3000 }
    ensures { out.new ≡ out.old ++ (if secret then secret_if (secrets_of masks.now.openings) condition else If condition ∷ []) }
{
    if secret {
        let around = masks.count();
        if_group(out, mask_at(around), 16 + around, condition)
    } else {
        out.copy(Instruction::If { condition })
    }
}

// The else of a secret if: the if itself is one of those around the else.
fn else_place(out: &mut Output, masks: &Masks)
    requires { length out.old + 15 ≤ 3000 }
    ensures { (long : ℕ → ℕ) (A : ℕ → Bool) (p : ℕ) → out.new ≡ out.old ++ becomes long A masks.now.openings p Else }
{
    match masks.innermost() {
        Some(Marked { label: true, .. }) => {
            let around = masks.count() - 1;
            else_group(out, mask_at(around), 16 + around)
        }
        _ => out.copy(Instruction::Else),
    }
}

fn end_place(out: &mut Output, masks: &Masks)
    requires { length out.old + 15 ≤ 3000 }
    ensures { (long : ℕ → ℕ) (A : ℕ → Bool) (p : ℕ) → out.new ≡ out.old ++ becomes long A masks.now.openings p End }
{
    match masks.innermost() {
        Some(Marked { label: true, .. }) => (),
        _ => out.copy(Instruction::End),
    }
}

// Writes what the instruction at `place` becomes. Bounds are asked of what stands plain in a list of the caller's.
pub(crate) fn convert_one(
    out: &mut Output,
    source: &Labelled,
    masks: &Masks,
    place: usize,
    instruction: Instruction,
)
    requires room { length out.old + 15 ≤ 3000 }
    requires place { place < length source.now.code.now }
    requires bound { bound 16 8 instruction ≡ true }
    ensures { out.new ≡ out.old ++ becomes (lengths source.now.tables.now) (sets source.now.plan.now place) masks.now.openings place instruction }
{
    match instruction {
        Instruction::Do { op } => {
            let mask = mask_at(masks.count());
            op_group(out, op, Site { place, mask }, source.tables)
        }
        Instruction::If { condition } => {
            // A plan has one entry more than the code, so it is read by the place.
            let secret = source.plan[place];
            if_place(out, masks, condition, has(secret, condition))
        }
        Instruction::Else => else_place(out, masks),
        Instruction::End => end_place(out, masks),
        Instruction::Repeat { .. } | Instruction::Again => out.copy(instruction),
    }
}

/// Writes what every place becomes.
pub fn convert_all(out: &mut Output, source: &Labelled)
    requires { out.old ≡ [] }
    ensures { out.new ≡ convert (lengths source.now.tables.now) (sets source.now.plan.now) [] 0 source.now.code.now }
{
    let mut masks = Masks::new();
    for (place, instruction) in source.code.iter().enumerate() {
        convert_one(out, source, &masks, place, *instruction);
        // A plan has one entry more than the code, so it is read by the place.
        masks.pass(*instruction, place, source.plan[place]);
    }
}
