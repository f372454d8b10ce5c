// Small images, made from what differs from an empty source, and what reading them answers.
mod bounds;
mod headers;
mod lists;
mod pairs;

use image::reader::read;
use instructions::Instruction;
use program::refusal::Refusal;
use std::alloc::{AllocError, Global};
use std::test::Fail;

// The tests of runs have these two functions again: tests of one crate cannot call those of another.
/// An empty source but for the header bytes that are set, and the instructions.
fn image_of(heap: Global, set: &[(usize, u8)], code: &[[u8; 8]]) -> Result<Vec<u8>, AllocError> {
    let mut image = vec![in heap; 0u8; 64]?;
    put(&mut image, 0, 1);
    put(&mut image, 4, (code.len() & 0xff) as u8);
    for (at, value) in set {
        put(&mut image, *at, *value);
    }
    for row in code {
        image.extend_from_slice(row)?;
    }
    Ok(image)
}

fn put(image: &mut Vec<u8>, at: usize, value: u8) {
    if let Some(byte) = image.get_mut(at) {
        *byte = value;
    }
}

/// What reading answers: the number of instructions, or a refusal. Two results, one in the other, since a
/// refusal is an answer here, and `?` passes on only the lack of memory.
fn answer(heap: Global, image: &[u8], room: usize) -> Result<Result<usize, Refusal>, AllocError> {
    let list = vec![in heap; Instruction::End; room]?;
    Ok(match read(image, list) {
        Ok(program) => Ok(program.code().len()),
        Err(back) => Err(back.refusal),
    })
}

/// Reading such an image, with room for every program, answers so.
fn expect(
    heap: Global,
    set: &[(usize, u8)],
    code: &[[u8; 8]],
    wanted: Result<usize, Refusal>,
) -> Result<(), Fail> {
    let image = image_of(heap, set, code)?;
    let answered = answer(heap, &image, 3000)?;
    if answered == wanted {
        Ok(())
    } else {
        Err(Fail::new(format_args!("{answered:?} in place of {wanted:?}")))
    }
}
