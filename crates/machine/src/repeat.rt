// A repeat that a run is inside of.
ghost use Rattle.std.specs.Prelude.{◌≡◌};
ghost use Rattle.machine.specs.Machine.{lowered};

/// An open repeat: the place after it, and the rounds left, with the one that is being run.
#[derive(Clone, Copy)]
pub struct OpenRepeat {
    pub start: usize,
    pub left: u32,
}

impl OpenRepeat {
    /// Lowers the rounds left by one.
    pub fn lower(&mut self)
        ensures { self.new ≡ lowered self.old }
    {
        self.left = self.left.saturating_sub(1);
    }
}
