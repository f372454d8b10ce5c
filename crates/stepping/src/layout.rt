// Where a program's brackets and tables lie.
ghost use Rattle.program.specs.Programs.{code_of};
ghost use Rattle.jumps.specs.Jumps.{Resolved};
ghost use Rattle.windows.specs.Windows.{Laid};

use jumps::resolve;
use memory::window::Window;
use program::program::Program;
use windows::lay;

// Arrays that are long enough for every program, since nothing is allocated in a run.
/// Where each bracket jumps to, and the window of each table.
#[derive(Drop)]
pub struct Layout {
    pub jumps: [u16; 3000],
    pub windows: [Window; 8],
}

impl Layout {
    // Where it is not inlined, the arrays are copied once more.
    /// Worked out once for a run.
    #[inline(always)]
    pub fn new(program: &Program) -> Layout
        ensures jumps { Resolved (code_of program.now) result.jumps }
        ensures windows { Laid program.now.header.tables result.windows }
    {
        Layout {
            jumps: resolve(program),
            windows: lay(program),
        }
    }
}
