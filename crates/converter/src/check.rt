// The first place of a source that cannot be converted.
ghost use Rattle.std.specs.Prelude.{◌≡◌, ℕ, Bool, true, ◌&&◌, not, []};
ghost use Rattle.program.specs.Bounds.{bound_op, bound};
ghost use Rattle.program.specs.Refusals.{refused_by};
ghost use Rattle.labels.specs.Sets.{bits, sets, secret_tables};
ghost use Rattle.conversion.specs.Refusing.{hidden_by, wrong_op, wrong, first_wrong};

use crate::labelled::Labelled;
use instructions::{Instruction, Op, Register};
use labels::sets::has;
use masks::masks::Masks;
use program::header::Table;
use program::refusal::{Reason, Refusal};

// What is known on arriving at a place: the secret registers, and whether it is masked. A memory
// hides accesses to all tables or to none.
#[derive(Clone, Copy)]
struct Arrival<'a> {
    secret: u16,
    masked: bool,
    hides: bool,
    tables: &'a [Table; 8],
}

impl Arrival<'_> {
    // Whether an access at an index shows something secret.
    fn shows(&self, index: Register) -> bool
        ensures { result ≡ (bits self.now.secret index && not self.now.hides) }
    {
        has(self.secret, index) && !self.hides
    }

    // Bounds are asked of what stands plain in a list of the caller's, and come from the program.
    // An index that shows, and then a store that would keep something secret in a public table.
    fn wrong_op(&self, op: Op) -> Option<Reason>
        requires { bound_op 16 8 op ≡ true }
        ensures { result ≡ wrong_op (secret_tables self.now.tables.now) (hidden_by self.now.hides) (bits self.now.secret) self.now.masked op }
    {
        match op {
            Op::Set { .. } | Op::Pick { .. } => None,
            Op::Load { index, .. } => self.shows(index).then_some(Reason::SecretIndex),
            Op::Store { from, index, table } => {
                if self.shows(index) {
                    return Some(Reason::SecretIndex);
                }
                let kept = self.masked || has(self.secret, from) || has(self.secret, index);
                (kept && !self.tables[usize::from(table)].secret).then_some(Reason::PublicStore)
            }
        }
    }

    fn wrong(&self, instruction: Instruction) -> Option<Reason>
        requires { bound 16 8 instruction ≡ true }
        ensures { result ≡ wrong (secret_tables self.now.tables.now) (hidden_by self.now.hides) (bits self.now.secret) self.now.masked instruction }
    {
        match instruction {
            Instruction::Do { op } => self.wrong_op(op),
            Instruction::Repeat { count, .. } => {
                has(self.secret, count).then_some(Reason::SecretRepeat)
            }
            _ => None,
        }
    }
}

/// Says which place is the first that cannot be converted.
pub fn check(source: &Labelled, hides: bool) -> Result<(), Refusal>
    ensures { refused_by result ≡ first_wrong (secret_tables source.now.tables.now) (hidden_by hides) (sets source.now.plan.now) [] 0 source.now.code.now }
{
    let mut masks = Masks::new();
    for (place, instruction) in source.code.iter().enumerate() {
        // A plan has one entry more than the code, so it is read by the place.
        let secret = source.plan[place];
        let arrival = Arrival {
            secret,
            masked: masks.masked(),
            hides,
            tables: source.tables,
        };
        if let Some(reason) = arrival.wrong(*instruction) {
            return Err(reason.at(place));
        }
        masks.pass(*instruction, place, secret);
    }
    Ok(())
}
