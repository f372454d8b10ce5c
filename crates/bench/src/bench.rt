// A bench, with what it keeps between calls.
ghost use Rattle.std.specs.Prelude.{◌≡◌, ◌≤◌, true, is_none, length};
ghost use Rattle.program.specs.Headers.{cells_of};
ghost use Rattle.counting.specs.Counting.{most_steps};
ghost use Rattle.calls.specs.Benches.{or_blank};
ghost use Rattle.bench.specs.Seats.{seated};

use crate::lists::Lists;
use calls::Ending;
use memory::Memory;
use program::program::Program;

// The second list is the program's once one is seated.
/// A memory, the converted program that is seated on it, and what a go starts from and left.
#[derive(Drop)]
pub struct Bench<M: Memory> {
    pub(crate) memory: M,
    pub(crate) lists: Lists,
    pub(crate) program: Option<Program>,
    pub(crate) entry: [u32; 16],
    pub(crate) last: Option<Ending>,
    ghost source: { length lists.source.items ≡ 3000 },
    ghost result: { is_none (seated program) ≡ true → length lists.result.items ≡ 3000 },
    ghost whole: { length entry ≡ 16 },
    ghost fits: { cells_of (or_blank (seated program)).header.tables ≤ length (M.model memory).cells },
    ghost short: { most_steps (or_blank (seated program)).code ≤ 1000000 },
}
