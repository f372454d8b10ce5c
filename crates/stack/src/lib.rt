// A stack of at most eight: what is open around a place.
#![tactic(auto)]

ghost use Rattle.std.specs.Prelude.{◌≡◌, ℕ, ◌≤◌, [], ◌∷◌, length, is_ok, if◌then◌else◌, nat_lt};
ghost use Rattle.stack.specs.Items.{items, top, below, swapped};

/// The most openings that are open together.
pub const DEEPEST: usize = 8;

/// There is no room for one more.
#[derive(Clone, Copy, PartialEq, Eq, Debug)]
pub struct Full;

// Contracts of other crates see what it holds by one word, `held`, and an `impl Model` would save only that
// word: no plainer. `ArrayVec` of the library would ask for a default of what it holds.
/// A stack of at most eight. Its cells lie in the value itself, since nothing here allocates.
#[derive(Drop)]
pub struct Stack<T> {
    cells: [T; 8],
    depth: usize,
    ghost few: { depth ≤ 8 },
    ghost room: { length cells ≡ 8 },
}

impl<T: Copy> Stack<T> {
    /// An empty stack; `filler` is never seen.
    pub fn new(filler: T) -> Stack<T>
        ensures { items result.cells result.depth ≡ [] }
    {
        Stack {
            cells: [filler; 8],
            depth: 0,
        }
    }

    pub fn top(&self) -> Option<T>
        ensures { result ≡ top (items self.now.cells self.now.depth) }
    {
        self.cells[..self.depth].last().copied()
    }

    /// Puts one on top; where there is no room nothing changes.
    pub fn push(&mut self, item: T) -> Result<(), Full>
        ensures room { is_ok result ≡ nat_lt (length (items self.old.cells self.old.depth)) 8 }
        ensures after { items self.new.cells self.new.depth ≡ (if is_ok result then item ∷ items self.old.cells self.old.depth else items self.old.cells self.old.depth) }
    {
        if self.depth >= DEEPEST {
            return Err(Full);
        }
        self.cells[self.depth] = item;
        self.depth += 1;
        Ok(())
    }

    /// Puts another one in the place of the top.
    pub fn swap(&mut self, item: T)
        ensures { items self.new.cells self.new.depth ≡ swapped item (items self.old.cells self.old.depth) }
    {
        // By number: no plainer through `last_mut`, which was tried and wants three answers for one.
        if self.depth > 0 {
            self.cells[self.depth - 1] = item;
        }
    }

    /// Takes the top off.
    pub fn pop(&mut self)
        ensures { items self.new.cells self.new.depth ≡ below (items self.old.cells self.old.depth) }
    {
        if self.depth > 0 {
            self.depth -= 1;
        }
    }
}
