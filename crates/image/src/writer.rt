// Writes an image.
ghost use Rattle.std.specs.Prelude.{◌≡◌, ◌*◌, length};
ghost use Rattle.image.specs.Images.{instruction_bytes, code_bytes};
ghost use Rattle.image.specs.Writing.{write_answer, written, Rereads};

use fields::fields::Fields;
use header::encode;
use instructions::Instruction;
use program::program::Program;
use program::refusal::{Reason, Refusal};

// Writes an instruction over eight bytes.
fn write_instruction(instruction: Instruction, out: &mut [u8])
    requires { length out.old ≡ 8 }
    ensures { out.new ≡ instruction_bytes instruction }
{
    out.copy_from_slice(&Fields::from(instruction).to_bytes());
}

// Each instruction is written by its own writer, which is lent its part of the bytes. It is found by its number,
// since of what a loop over the chunks of a slice wrote no proof can know.
fn write_code(code: &[Instruction], out: &mut [u8])
    requires { length out.old ≡ 8 * length code.now }
    ensures { out.new ≡ code_bytes code.now }
{
    for (i, instruction) in code.iter().enumerate() {
        write_instruction(*instruction, &mut out[8 * i..8 * i + 8]);
    }
}

/// Writes a program as an image, and answers how many bytes that is. Later bytes stay, and a
/// refusal changes none.
pub fn write(program: &Program, out: &mut [u8]) -> Result<usize, Refusal>
    ensures answer { result ≡ write_answer program.now (length out.old) }
    ensures bytes { out.new ≡ written result program.now out.old }
    ensures reread { Rereads result out.new program.now }
{
    let header = program.header();
    let needed = 64 + 8 * usize::from(header.count);
    if out.len() < needed {
        return Err(Reason::NoRoomForImage.at(needed));
    }
    out[..64].copy_from_slice(&encode::encode(&header));
    write_code(program.code(), &mut out[64..needed]);
    Ok(needed)
}
