// The tables of a program as windows of cells, worked out once for a run.
#![tactic(auto)]

ghost use Rattle.std.specs.Prelude.{◌≡◌, ◌<◌, length, slice_index_or};
ghost use Rattle.program.specs.Headers.{cells_of};
ghost use Rattle.windows.specs.Windows.{no_window, Laid};

use memory::window::Window;
use program::program::Program;

/// Each table's window: the tables lie one after another from cell 0.
pub fn lay(program: &Program) -> [Window; 8]
    ensures each { Laid program.now.header.tables result }
    ensures wide { length result ≡ 8 }
{
    let header = program.header();
    std::array::from_fn(|t| Window {
        first: header.first_cell(t) as usize,
        length: usize::from(header.tables[t].length),
    })
}

/// The window of a table.
pub fn of_table(windows: &[Window; 8], table: u8) -> Window
    requires { table < 8 }
    ensures { result ≡ slice_index_or windows.now table no_window }
{
    windows[usize::from(table)]
}

/// How many cells the tables have together.
pub fn cells(program: &Program) -> usize
    ensures { result ≡ cells_of program.now.header.tables }
{
    program.header().cells() as usize
}
