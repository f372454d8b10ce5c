// What is open around a place, each opening with a label.
ghost use Rattle.std.specs.Prelude.{◌≡◌, [], ◌∷◌, length, is_ok, if◌then◌else◌, IfOk, None, nat_lt};
ghost use Rattle.stack.specs.Items.{top};
ghost use Rattle.program.specs.declared.refusal.Reason.TheVariants.{TooDeep};
ghost use Rattle.program.specs.Refusals.{refused_by, unless};
ghost use Rattle.program.specs.Openings.{past};
ghost use Rattle.program.specs.Pairing.{wrong, left_open};
ghost use Rattle.brackets.specs.Labelled.{mark, turned, unmarked, marked_past, closed};
ghost use Rattle.brackets.specs.Nesting.{PairedIsNested};

use instructions::Instruction;
use program::opening::{Marked, Opening};
use program::refusal::{Reason, Refusal};
use stack::{Full, Stack};
use std::marker::Model;

/// What is open around a place, at most eight. Each opening has the label that it got as it was
/// opened. A contract sees the list of them, innermost first.
#[derive(Drop)]
pub struct Openings<L> {
    open: Stack<Marked<L>>,
}

/// Openings with no labels: enough to pair brackets.
pub type Matcher = Openings<()>;

impl<L> Model for Openings<L> {
    ghost use Rattle.std.specs.Prelude.{List};
    ghost use Rattle.stack.specs.Held.{held};
    ghost use Rattle.program.specs.declared.opening.Marked.{Marked};

    ghost Value = { List (Marked L) };

    ghost view = { λ a. held a.open };
}

impl<L: Copy + Default> Openings<L> {
    /// At place 0, where nothing is open.
    pub fn new() -> Openings<L>
        ensures { result ≡ [] }
    {
        let filler = Marked {
            opening: Opening::Loop { place: 0 },
            label: L::default(),
        };
        Openings {
            open: Stack::new(filler),
        }
    }
}

impl<L: Copy> Openings<L> {
    /// The innermost opening.
    pub fn innermost(&self) -> Option<Marked<L>>
        ensures { result ≡ top self.now }
    {
        self.open.top()
    }

    /// Passes the instruction at `place`, or says what is wrong with it. What it opens gets the
    /// label; what it closes is answered.
    #[tactic(auto, using(crate::proofs::Unmarking::as_long))]
    pub fn pass(
        &mut self,
        instruction: Instruction,
        place: usize,
        label: L,
    ) -> Result<Option<Marked<L>>, Refusal>
        ensures answer { refused_by result ≡ wrong (unmarked self.old) place instruction }
        ensures closed { IfOk result (λ c. c ≡ closed instruction self.old) }
        ensures after { self.new ≡ (if is_ok result then marked_past label place instruction self.old else self.old) }
        ensures bare { unmarked self.new ≡ (if is_ok result then past place instruction (unmarked self.old) else unmarked self.old) }
    {
        let innermost = self.innermost();
        match (innermost.map(|marked| marked.opening), instruction) {
            (_, Instruction::Do { .. }) => Ok(None),
            (_, Instruction::If { condition }) => {
                self.enter(Opening::Then { place, condition }, place, label)
            }
            (_, Instruction::Repeat { .. }) => self.enter(Opening::Loop { place }, place, label),
            (
                Some(
                    Opening::Then {
                        place: opened,
                        condition,
                    },
                ),
                Instruction::Else,
            ) => {
                self.turn(Opening::Otherwise {
                    place: opened,
                    condition,
                    middle: place,
                });
                Ok(None)
            }
            (Some(Opening::Then { .. } | Opening::Otherwise { .. }), Instruction::End)
            | (Some(Opening::Loop { .. }), Instruction::Again) => {
                self.open.pop();
                Ok(innermost)
            }
            (_, Instruction::Else | Instruction::End | Instruction::Again) => {
                Err(Reason::BadBracket.at(place))
            }
        }
    }

    // Another opening in place of the innermost, with the same label.
    fn turn(&mut self, opening: Opening)
        ensures { self.new ≡ turned opening self.old }
    {
        if let Some(innermost) = self.innermost() {
            let label = innermost.label;
            self.open.swap(Marked { opening, label });
        }
    }

    fn enter(
        &mut self,
        opening: Opening,
        place: usize,
        label: L,
    ) -> Result<Option<Marked<L>>, Refusal>
        ensures answer { refused_by result ≡ unless (nat_lt (length self.old) 8) TooDeep place }
        ensures closed { IfOk result (λ c. c ≡ None) }
        ensures after { self.new ≡ (if is_ok result then mark opening label ∷ self.old else self.old) }
    {
        match self.open.push(Marked { opening, label }) {
            Ok(()) => Ok(None),
            Err(Full) => Err(Reason::TooDeep.at(place)),
        }
    }

    /// Nothing may be left open. What passes to the end is the writing-out of nested blocks.
    pub fn finish(self) -> Result<(), Refusal>
        ensures answer { refused_by result ≡ left_open (unmarked self) }
        ensures nested { PairedIsNested }
    {
        match self.innermost() {
            Some(innermost) => Err(Reason::BadBracket.at(innermost.opening.place())),
            None => Ok(()),
        }
    }
}
