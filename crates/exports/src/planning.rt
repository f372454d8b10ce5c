// Sources labelled.
ghost use Rattle.std.specs.Prelude.{◌≡◌};
ghost use Rattle.exports.specs.Came.{Tells};
ghost use Rattle.exports.specs.Planning.{Labelled};

use crate::came::{Came, told};
use crate::failed::Failed;
use crate::reading::program_of;
use plan::plan::plan;
use program::program::Program;
use std::alloc::Global;

// Plans so many times, and answers how often the plan was made.
fn plan_often(source: &Program, times: usize) -> usize {
    let mut sets = [0u16; 201];
    let mut made = 0usize;
    for _ in 0..times {
        made = made.saturating_add(usize::from(plan(source, &mut sets).is_ok()));
    }
    made
}

fn label(heap: Global, image: &[u8], sets: &mut [u16], again: usize) -> Result<usize, Failed>
    ensures { Labelled image.now sets.old sets.new result }
{
    let program = program_of(heap, image)?;
    let _ = plan_often(&program, again);
    plan(&program, sets)?;
    Ok(usize::from(program.header().count) + 1)
}

/// Reads an image, and writes the smallest sets of secret registers, one for each place and one for the place after the
/// last. Later entries stay, and a refusal changes none.
#[unsafe(no_mangle)]
pub extern "C" fn exports_plan(heap: Global, image: &[u8], sets: &mut [u16], again: usize) -> Came
    ensures { Tells result (Labelled image.now sets.old sets.new) }
{
    told(label(heap, image, sets, again))
}
