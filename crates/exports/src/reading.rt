// Images read, and written back.
ghost use Rattle.std.specs.Prelude.{◌≡◌, length, IfOk, MatchResult};
ghost use Rattle.exports.specs.Came.{Tells, Failing};
ghost use Rattle.exports.specs.Reading.{Read, Rewritten};
ghost use Rattle.image.specs.Images.{image_refusal};

use crate::came::{Came, told};
use crate::failed::Failed;
use image::{reader, writer};
use instructions::Instruction;
use program::header::Kind;
use program::program::Program;
use std::alloc::{AllocError, Global};

// A list for the longest program.
pub(crate) fn list(heap: Global) -> Result<Vec<Instruction>, AllocError>
    ensures { IfOk result (λ list. length list.items ≡ 3000) }
{
    vec![in heap; Instruction::Again; usize::from(Kind::Converted.longest())]
}

// The program of an image.
pub(crate) fn program_of(heap: Global, image: &[u8]) -> Result<Program, Failed>
    ensures { MatchResult result (Read image.now) (Failing (image_refusal image.now)) }
{
    Ok(reader::read(image, list(heap)?)?)
}

// Reads, and gives back the list.
fn read_once(image: &[u8], list: Vec<Instruction>) -> Vec<Instruction> {
    match reader::read(image, list) {
        Ok(program) => program.into_list(),
        Err(back) => back.list,
    }
}

// Reads so many times.
fn read_often(heap: Global, image: &[u8], times: usize) -> Result<(), AllocError> {
    let mut list = list(heap)?;
    for _ in 0..times {
        list = read_once(image, list);
    }
    Ok(())
}

fn rewrite(heap: Global, image: &[u8], out: &mut [u8], again: usize) -> Result<usize, Failed>
    ensures { Rewritten image.now out.old out.new result }
{
    read_often(heap, image, again)?;
    let program = program_of(heap, image)?;
    Ok(writer::write(&program, out)?)
}

/// Reads an image, and writes it back. Later bytes stay, and a refusal changes none.
#[unsafe(no_mangle)]
pub extern "C" fn exports_rewrite(heap: Global, image: &[u8], out: &mut [u8], again: usize) -> Came
    ensures { Tells result (Rewritten image.now out.old out.new) }
{
    told(rewrite(heap, image, out, again))
}
