// Sources converted.
ghost use Rattle.std.specs.Prelude.{◌≡◌};
ghost use Rattle.exports.specs.Came.{Tells};
ghost use Rattle.exports.specs.Converting.{Straightened};

use crate::came::{Came, told};
use crate::failed::Failed;
use crate::reading::{list, program_of};
use converter::convert;
use image::writer;
use instructions::Instruction;
use program::program::Program;
use std::alloc::{AllocError, Global};

// Converts, and gives back the list.
fn convert_once(source: &Program, hides: bool, list: Vec<Instruction>) -> Vec<Instruction> {
    match convert(source, hides, list) {
        Ok(program) => program.into_list(),
        Err(back) => back.list,
    }
}

// Converts so many times.
fn convert_often(
    heap: Global,
    source: &Program,
    hides: bool,
    times: usize,
) -> Result<(), AllocError> {
    let mut list = list(heap)?;
    for _ in 0..times {
        list = convert_once(source, hides, list);
    }
    Ok(())
}

fn straighten(
    heap: Global,
    image: &[u8],
    hides: bool,
    out: &mut [u8],
    again: usize,
) -> Result<usize, Failed>
    ensures { Straightened image.now hides out.old out.new result }
{
    let source = program_of(heap, image)?;
    convert_often(heap, &source, hides, again)?;
    let straight = convert(&source, hides, list(heap)?)?;
    Ok(writer::write(&straight, out)?)
}

/// Reads an image, converts it for a memory that hides accesses or for one that does not, and writes the result. Later
/// bytes stay, and a refusal changes none.
#[unsafe(no_mangle)]
pub extern "C" fn exports_convert(
    heap: Global,
    image: &[u8],
    hides: bool,
    out: &mut [u8],
    again: usize,
) -> Came
    ensures { Tells result (Straightened image.now hides out.old out.new) }
{
    told(straighten(heap, image, hides, out, again))
}
