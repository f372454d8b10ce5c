// Reads an image.
ghost use Rattle.std.specs.Prelude.{◌≡◌, ℕ, ◌+◌, ◌*◌, ◌/◌, ◌≤◌, [], ◌++◌, length, drop, map, IfOk, slice_index_or};
ghost use Rattle.std.specs.Simd.{first_chunks};
ghost use Rattle.program.specs.declared.refusal.Reason.TheVariants.{BadField};
ghost use Rattle.program.specs.Refusals.{refused_by};
ghost use Rattle.program.specs.Firsts.{first_failing};
ghost use Rattle.program.specs.Pairing.{pairing};
ghost use Rattle.fields.specs.Fields.{fields_at};
ghost use Rattle.fields.specs.Rows.{admitted};
ghost use Rattle.header.specs.Layout.{header_at};
ghost use Rattle.image.specs.Images.{instruction_of, image_refusal, read_refusal};
ghost use Rattle.image.specs.Reading.{Reads, Rewrites, Nests};

use brackets::openings::Matcher;
use fields::fields::Fields;
use fields::rows::Limits;
use header::decode;
use instructions::Instruction;
use program::handed_back::HandedBack;
use program::header::Header;
use program::program::Program;
use program::refusal::{Reason, Refusal};

// What follows the header: eight bytes for each instruction.
fn code_in(image: &[u8]) -> &[[u8; 8]]
    requires { 64 ≤ length image.now }
    ensures chunks { result.now ≡ first_chunks 8 (length (drop 64 image.now) / 8) (drop 64 image.now) }
    ensures count { length result.now ≡ length (drop 64 image.now) / 8 }
{
    let (code, _) = image[64..].as_chunks::<8>();
    code
}

fn check_fields(code: &[[u8; 8]], limits: Limits) -> Result<(), Refusal>
    ensures { refused_by result ≡ first_failing BadField (λ place. admitted limits (fields_at (slice_index_or code.now place []) 0)) 0 (length code.now) }
{
    match code
        .iter()
        .position(|bytes| !Fields::from_bytes(*bytes).admitted(limits))
    {
        Some(place) => Err(Reason::BadField.at(place)),
        None => Ok(()),
    }
}

fn check_brackets(code: &[[u8; 8]]) -> Result<(), Refusal>
    ensures { refused_by result ≡ pairing [] 0 (map instruction_of code.now) }
{
    let mut matcher = Matcher::new();
    for (place, bytes) in code.iter().enumerate() {
        matcher.pass(Fields::from_bytes(*bytes).into(), place, ())?;
    }
    matcher.finish()
}

fn fill(code: &[[u8; 8]], list: &mut Vec<Instruction>)
    requires { length code.now ≤ length list.old.items }
    ensures { list.new.items ≡ map instruction_of code.now ++ drop (length code.now) list.old.items }
{
    // Written by number: of what zip over iter_mut leaves no proof can know.
    for (place, bytes) in code.iter().enumerate() {
        list[place] = Fields::from_bytes(*bytes).into();
    }
}

/// All that is asked of an image, whatever the list that it is read into.
pub fn check(image: &[u8]) -> Result<Header, Refusal>
    ensures refusal { refused_by result ≡ image_refusal image.now }
    ensures value { IfOk result (λ h. (h ≡ header_at image.now) × (length image.now ≡ 64 + 8 * h.count)) }
{
    let header = decode::decode(image)?;
    let code = code_in(image);
    let limits = Limits {
        registers: header.kind.registers(),
        tables: header.used,
    };
    check_fields(code, limits)?;
    check_brackets(code)?;
    Ok(header)
}

// The same, and that there is room for so many instructions.
fn check_room(image: &[u8], room: usize) -> Result<Header, Refusal>
    ensures refusal { refused_by result ≡ read_refusal image.now room }
    ensures value { IfOk result (λ h. (h ≡ header_at image.now) × (length image.now ≡ 64 + 8 * h.count) × (h.count ≤ room)) }
{
    let header = check(image)?;
    let count = usize::from(header.count);
    if room < count {
        return Err(Reason::NoRoomForCode.at(count));
    }
    Ok(header)
}

/// Reads an image into the list: its first entries become the program's instructions, and later
/// ones stay. A refusal hands the list back unchanged.
pub fn read(image: &[u8], mut list: Vec<Instruction>) -> Result<Program, HandedBack>
    ensures answer { Reads image.now list.items result }
    ensures rewritten { Rewrites image.now result }
    ensures nested { Nests image.now result }
{
    match check_room(image, list.len()) {
        Ok(header) => {
            fill(code_in(image), &mut list);
            Ok(Program::new(header, list))
        }
        Err(refusal) => Err(HandedBack { refusal, list }),
    }
}
