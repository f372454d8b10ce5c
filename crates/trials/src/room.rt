// The image that is tried, and the lists that it is read and written in, used again from trial to trial.
ghost use Rattle.std.specs.Prelude.{◌≡◌, ℕ, List, [], length, replicate, IfOk, OnErr, MatchResult};
ghost use Rattle.hexadecimal.specs.declared.DecodeError.TheVariants.{NotHexadecimal};
ghost use Rattle.trials.specs.Given.{Gives};
ghost use Rattle.image.specs.Images.{image_of};
ghost use Rattle.program.specs.Programs.{code_of};
ghost use Rattle.trials.specs.Answers.{read_answer, write_answer, bytes_answer};
ghost use Rattle.trials.specs.Tried.{Tried};

use crate::answer;
use crate::answer::Answer;
use hexadecimal::DecodeError;
use image::{reader, writer};
use instructions::Instruction;
use program::handed_back::HandedBack;
use program::header::Kind;
use program::program::Program;
use program::refusal::Refusal;
use std::alloc::{AllocError, Global};
use std::mem;

#[derive(Drop)]
pub struct Room {
    heap: Global,
    image: Vec<u8>,
    list: Vec<Instruction>,
    out: Vec<u8>,
}

impl Room {
    /// With no image yet.
    pub fn new(heap: Global) -> Room
        ensures { result.image.items ≡ [] }
    {
        Room {
            heap,
            image: Vec::new(heap),
            list: Vec::new(heap),
            out: Vec::new(heap),
        }
    }

    /// Takes the image that a text spells, `-` for no bytes. An error leaves the last one.
    pub fn take_image(&mut self, text: &str) -> Result<(), DecodeError>
        ensures answer { MatchResult result (λ taken. Gives text.now self.new.image.items) (λ e. e ≡ NotHexadecimal → (bytes : List ℕ) → Gives text.now bytes → ⊥) }
        ensures err { OnErr result (self.new.image ≡ self.old.image) }
    {
        if text == "-" {
            self.image.clear();
            return Ok(());
        }
        self.image = hexadecimal::decode(self.heap, text.as_bytes())?;
        Ok(())
    }

    /// Reads the image into an instruction list of this length.
    pub fn read(&mut self, cap: usize) -> Result<Answer, AllocError>
        ensures { IfOk result (λ a. a ≡ read_answer self.old.image.items cap) }
    {
        match try_read(self.heap, &self.image, &mut self.list, cap)? {
            Ok(program) => {
                let header = program.header();
                self.list = program.into_list();
                Ok(Answer::Read {
                    kind: header.kind,
                    count: header.count,
                })
            }
            Err(refusal) => Ok(Answer::Refused { refusal }),
        }
    }

    /// Reads the image, and writes it into a byte list of this length.
    pub fn write(&mut self, cap: usize) -> Result<Answer, AllocError>
        ensures { IfOk result (λ a. a ≡ write_answer self.old.image.items cap) }
    {
        let enough = usize::from(Kind::Converted.longest());
        match try_read(self.heap, &self.image, &mut self.list, enough)? {
            Ok(program) => {
                let answer = try_write(&program, &mut self.out, &self.image, cap);
                self.list = program.into_list();
                answer
            }
            Err(refusal) => Ok(Answer::Refused { refusal }),
        }
    }
}

// The list goes into the program, or comes back. Two results, one in the other, are plainer than an
// error enum here: a refusal is an answer to the callers, and `?` passes on only the lack of memory.
fn try_read(
    heap: Global,
    image: &[u8],
    list: &mut Vec<Instruction>,
    cap: usize,
) -> Result<Result<Program, Refusal>, AllocError>
    ensures { IfOk result (λ o. Tried image.now cap o) }
{
    let mut handed = mem::replace(list, Vec::new(heap));
    handed.resize(cap, Instruction::Again)?;
    match reader::read(image, handed) {
        Ok(program) => Ok(Ok(program)),
        Err(
            HandedBack {
                refusal,
                list: back,
            },
        ) => {
            *list = back;
            Ok(Err(refusal))
        }
    }
}

// The program is the one that was read from the image.
fn try_write(
    program: &Program,
    out: &mut Vec<u8>,
    image: &[u8],
    cap: usize,
) -> Result<Answer, AllocError>
    ensures { IfOk result (λ a. image_of program.now.header (code_of program.now) ≡ image.now → a ≡ bytes_answer (length image.now) cap) }
{
    out.clear();
    out.resize(cap, answer::UNTOUCHED)?;
    Ok(write_over(program, out, image))
}

// The byte list holds nothing but filler.
fn write_over(program: &Program, out: &mut [u8], image: &[u8]) -> Answer
    requires { out.old ≡ replicate (length out.old) 165 }
    ensures { image_of program.now.header (code_of program.now) ≡ image.now → result ≡ bytes_answer (length image.now) (length out.old) }
{
    let answer = writer::write(program, out);
    answer::judge(answer, out, image)
}
