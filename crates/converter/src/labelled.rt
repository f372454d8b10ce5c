// A source that is labelled.
ghost use Rattle.std.specs.Prelude.{◌≡◌, ◌+◌, ◌≤◌, length};
ghost use Rattle.plan.specs.Planned.{Passable};

use instructions::Instruction;
use program::header::Table;

/// The code and tables of a source, and a set of secret registers for each place.
#[derive(Clone, Copy)]
pub struct Labelled<'a> {
    pub code: &'a [Instruction],
    pub tables: &'a [Table; 8],
    pub plan: &'a [u16],
    ghost passable: { Passable code.now },
    ghost short: { length code.now ≤ 200 },
    ghost long: { length plan.now ≡ length code.now + 1 },
}
