// The open repeats, and how a repeat and its again move a run.
#![tactic(auto)]

ghost use Rattle.std.specs.Prelude.{◌≡◌, [], ◌∷◌, ◌<◌, ◌≤◌, length};
ghost use Rattle.stack.specs.Items.{below};
ghost use Rattle.stack.specs.Held.{held};
ghost use Rattle.machine.specs.declared.visit.Choice.TheVariants.{Inward, Past};
ghost use Rattle.machine.specs.Machine.{open_at, lowered};
ghost use Rattle.repeats.specs.Moves.{innermost, Goes};

use machine::repeat::OpenRepeat;
use machine::visit::Choice;
use stack::Stack;

/// Where a step goes, and the choice that its visit has.
#[derive(Clone, Copy)]
pub struct Move {
    pub place: usize,
    pub choice: Choice,
}

impl Move {
    /// To a place, with this choice.
    pub fn new(place: usize, choice: Choice) -> Move
        ensures { Goes place choice result }
    {
        Move { place, choice }
    }
}

/// The open repeats, the innermost on top.
#[derive(Drop)]
pub struct Repeats {
    open: Stack<OpenRepeat>,
}

impl Repeats {
    /// No repeat is open.
    pub fn new() -> Repeats
        ensures { held result.open ≡ [] }
    {
        Repeats {
            open: Stack::new(OpenRepeat { start: 0, left: 0 }),
        }
    }

    /// A repeat with so many rounds: the first begins, or the run goes past it.
    pub fn begin(&mut self, rounds: u32, next: usize, past: usize) -> Move
        requires { length (held self.old.open) < 8 }
        ensures none { rounds ≡ 0 → Goes past Past result × (held self.new.open ≡ held self.old.open) }
        ensures some { 0 < rounds → Goes next Inward result × (held self.new.open ≡ open_at next rounds ∷ held self.old.open) }
    {
        if rounds == 0 {
            return Move::new(past, Choice::Past);
        }
        let _ = self.open.push(OpenRepeat {
            start: next,
            left: rounds,
        });
        Move::new(next, Choice::Inward)
    }

    /// An again lowers the rounds left of its own repeat by one: the next round, or on.
    pub fn back(&mut self, next: usize) -> Move
        requires { 0 < length (held self.old.open) }
        ensures none { (innermost (held self.old.open)).left ≤ 1 → Goes next Past result × (held self.new.open ≡ below (held self.old.open)) }
        ensures some { 1 < (innermost (held self.old.open)).left → Goes (innermost (held self.old.open)).start Inward result × (held self.new.open ≡ lowered (innermost (held self.old.open)) ∷ below (held self.old.open)) }
    {
        let mut own = self.open.top().unwrap();
        own.lower();
        if own.left == 0 {
            self.open.pop();
            return Move::new(next, Choice::Past);
        }
        self.open.swap(own);
        Move::new(own.start, Choice::Inward)
    }
}
