// What a run writes down of each step.
ghost use Rattle.std.specs.Prelude.{◌≡◌};
ghost use Rattle.machine.specs.Choices.{number_of};

/// Where a step goes; the discriminant is the number that is shown.
#[derive(Clone, Copy, PartialEq, Eq, Debug)]
pub enum Choice {
    /// To the next place, or from an else to its end.
    Onward = 0,
    /// Into the first arm of an if, or a round of a repeat.
    Inward = 1,
    /// Past the first arm of an if, or past a repeat.
    Past = 2,
    /// Nowhere: the run stops.
    Fault = 3,
}

impl Choice {
    /// The number that is shown.
    pub fn number(self) -> u8
        ensures { result ≡ number_of self }
    {
        self as u8
    }
}

/// The place of a step, and the choice that was made there.
#[derive(Clone, Copy, PartialEq, Eq, Debug)]
pub struct Visit {
    pub place: u16,
    pub choice: Choice,
}
