// Lists for instructions, made once and lent to reading and to converting.
ghost use Rattle.std.specs.Prelude.{◌≡◌, length, IfOk, MatchResult};
ghost use Rattle.program.specs.Refusals.{refused_by};
ghost use Rattle.calls.specs.Calls.{source_at, converted, unconverted};
ghost use Rattle.image.specs.Images.{image_refusal};
ghost use Rattle.bench.specs.Seats.{program_seated};

use converter::convert;
use image::reader::read;
use instructions::Instruction;
use program::handed_back::HandedBack;
use program::header::Kind;
use program::program::Program;
use program::refusal::Refusal;
use std::alloc::{AllocError, Global};
use std::mem;

// A list is empty only while it is lent, and an empty one takes nothing from the heap.
/// Room for the longest program that an image has, and for the longest that a source becomes.
#[derive(Drop)]
pub(crate) struct Lists {
    heap: Global,
    pub(crate) source: Vec<Instruction>,
    pub(crate) result: Vec<Instruction>,
}

// A list for the longest program.
fn longest(heap: Global) -> Result<Vec<Instruction>, AllocError>
    ensures { IfOk result (λ list. length list.items ≡ 3000) }
{
    vec![in heap; Instruction::Again; usize::from(Kind::Converted.longest())]
}

impl Lists {
    pub(crate) fn new(heap: Global) -> Result<Lists, AllocError>
        ensures { IfOk result (λ l. (length l.source.items ≡ 3000) × (length l.result.items ≡ 3000)) }
    {
        let source = longest(heap)?;
        let result = longest(heap)?;
        Ok(Lists {
            heap,
            source,
            result,
        })
    }

    // Reads an image into the first list, which is lent to the program.
    pub(crate) fn read(&mut self, image: &[u8]) -> Result<Program, Refusal>
        requires { length self.old.source.items ≡ 3000 }
        ensures refusal { refused_by result ≡ image_refusal image.now }
        ensures program { MatchResult result (λ p. (program_seated p ≡ source_at image.now) × (length p.list.items ≡ 3000)) (λ _. length self.new.source.items ≡ 3000) }
        ensures other { self.new.result ≡ self.old.result }
    {
        let list = mem::replace(&mut self.source, Vec::new(self.heap));
        match read(image, list) {
            Ok(program) => Ok(program),
            Err(HandedBack { refusal, list }) => {
                self.source = list;
                Err(refusal)
            }
        }
    }

    // Converts a source into the second list, which is lent to the program.
    pub(crate) fn convert(&mut self, source: &Program, hides: bool) -> Result<Program, Refusal>
        requires { length self.old.result.items ≡ 3000 }
        ensures refusal { refused_by result ≡ unconverted hides (program_seated source.now) }
        ensures program { MatchResult result (λ p. (program_seated p ≡ converted (program_seated source.now)) × (length p.list.items ≡ 3000)) (λ _. length self.new.result.items ≡ 3000) }
        ensures other { self.new.source ≡ self.old.source }
    {
        let list = mem::replace(&mut self.result, Vec::new(self.heap));
        match convert(source, hides, list) {
            Ok(program) => Ok(program),
            Err(HandedBack { refusal, list }) => {
                self.result = list;
                Err(refusal)
            }
        }
    }
}
