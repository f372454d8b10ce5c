// The openings around a place, with the labels of their conditions.
ghost use Rattle.std.specs.Prelude.{◌≡◌, ℕ, ◌≤◌, Bool, [], length};
ghost use Rattle.stack.specs.Items.{top};
ghost use Rattle.labels.specs.Kinds.{secrecy};
ghost use Rattle.labels.specs.Rules.{mask_of};
ghost use Rattle.labels.specs.Passes.{labelled, opens};
ghost use Rattle.labels.specs.Sets.{bits};
ghost use Rattle.masks.specs.Counts.{secrets_of};

use brackets::openings::Openings;
use instructions::Instruction;
use labels::marks::none_open;
use labels::sets::has;
use program::opening::Marked;

/// What is open around a place. An if is labelled as it is passed, and keeps that label.
#[derive(Drop)]
pub struct Masks {
    openings: Openings<bool>,
    count: u8,
    ghost counted: { count ≡ secrets_of openings },
    ghost few: { length openings ≤ 8 },
}

// The label of what an instruction opens, where the registers of `secret` arrive as secret ones.
fn labelled(instruction: Instruction, secret: u16) -> bool
    ensures { result ≡ labelled secrecy (bits secret) instruction }
{
    match instruction {
        Instruction::If { condition } => has(secret, condition),
        _ => false,
    }
}

impl Masks {
    /// At place 0, where nothing is open.
    pub fn new() -> Masks
        ensures { result.openings ≡ [] }
    {
        Masks {
            openings: none_open(),
            count: 0,
        }
    }

    /// The innermost opening.
    pub fn innermost(&self) -> Option<Marked<bool>>
        ensures { result ≡ top self.now.openings }
    {
        self.openings.innermost()
    }

    /// How many secret ifs are around the place.
    #[tactic(auto, using(crate::proofs::Counting::secrets_le))]
    pub fn count(&self) -> u8
        ensures value { result ≡ secrets_of self.now.openings }
        ensures few { result ≤ 8 }
    {
        self.count // no more than there are openings
    }

    /// Whether the place is masked: some if around it is secret.
    #[tactic(auto, using(crate::proofs::Counting::masks_mask))]
    pub fn masked(&self) -> bool
        ensures { result ≡ mask_of secrecy self.now.openings }
    {
        self.count > 0
    }

    /// Passes the instruction at `place`, where the registers of `secret` arrive as secret ones.
    #[tactic(auto, using(crate::proofs::Counting::counted, crate::proofs::Counting::byte_le, crate::proofs::Counting::secrets_le))]
    pub fn pass(&mut self, instruction: Instruction, place: usize, secret: u16)
        requires { length (opens secrecy (bits secret) self.old.openings place instruction) ≤ 8 }
        ensures { self.new.openings ≡ opens secrecy (bits secret) self.old.openings place instruction }
    {
        // Most instructions are ops, and an op changes nothing here.
        if let Instruction::Do { .. } = instruction {
            return;
        }
        let label = labelled(instruction, secret);
        if let Ok(closed) = self.openings.pass(instruction, place, label) {
            if label {
                self.count += 1;
            }
            if closed.is_some_and(|closed| closed.label) {
                self.count -= 1;
            }
        }
    }
}
