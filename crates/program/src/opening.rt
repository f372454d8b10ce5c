// What may be open around a place.
ghost use Rattle.std.specs.Prelude.{◌≡◌};
ghost use Rattle.program.specs.Openings.{opened_at};

use instructions::Register;

/// An opening that is not closed yet: a bracket's place, an if's condition, and past its else the
/// place of that.
#[derive(Clone, Copy)]
pub enum Opening {
    Then {
        place: usize,
        condition: Register,
    },
    Otherwise {
        place: usize,
        condition: Register,
        middle: usize,
    },
    Loop {
        place: usize,
    },
}

/// An opening, with the label of its condition.
#[derive(Clone, Copy)]
pub struct Marked<L> {
    pub opening: Opening,
    pub label: L,
}

impl Opening {
    /// The place of the bracket that opened it.
    pub fn place(self) -> usize
        ensures { result ≡ opened_at self }
    {
        match self {
            Opening::Then { place, .. } => place,
            Opening::Otherwise { place, .. } => place,
            Opening::Loop { place } => place,
        }
    }
}
