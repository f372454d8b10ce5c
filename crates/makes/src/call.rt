// Calls to a memory, and what is answered.
ghost use Rattle.std.specs.Prelude.{◌≡◌};
ghost use Rattle.makes.specs.Calls.{word_or, done_or, answers, leaves};

use memory::window::Window;
use memory::{Access, Mark, Memory};
use program::refusal::Refusal;
use std::fmt;

// Three of these are operations of `piles` too. Those drop their answers, so that neither enum could hold
// the other and be plainer. A table and an offset are two, as in a memory's own calls.
#[derive(Clone, Copy)]
pub enum Call {
    Read {
        table: Window,
        off: usize,
    },
    Write {
        table: Window,
        off: usize,
        word: u32,
    },
    Cost {
        access: Access,
        len: usize,
    },
    Free,
    Size,
    Hides,
    Marks,
    Mark {
        j: usize,
    },
    Clear,
}

// A refusal is one of the answers that a case file expects, so this is no Result.
#[derive(Clone, Copy)]
pub enum Answer {
    Word { word: u32 },
    Number { number: usize },
    Flag { flag: bool },
    Seen { mark: Option<Mark> },
    Done,
    Refused { refusal: Refusal },
}

// What a read answers. That of a write has nothing to carry: of both one generic function would be handed what differs.
fn read(answer: Result<u32, Refusal>) -> Answer
    ensures { result ≡ word_or answer }
{
    answer.map_or_else(
        |refusal| Answer::Refused { refusal },
        |word| Answer::Word { word },
    )
}

// What a write answers.
fn wrote(answer: Result<(), Refusal>) -> Answer
    ensures { result ≡ done_or answer }
{
    answer.map_or_else(|refusal| Answer::Refused { refusal }, |()| Answer::Done)
}

/// Makes one call.
pub fn perform<M: Memory>(memory: &mut M, call: Call) -> Answer
    ensures answer { result ≡ answers call (M.model memory.old) }
    ensures after { M.model memory.new ≡ leaves call (M.model memory.old) }
{
    match call {
        Call::Read { table, off } => read(memory.read(table, off)),
        Call::Write { table, off, word } => wrote(memory.write(table, off, word)),
        Call::Cost { access, len } => Answer::Number {
            number: memory.cost(access, len),
        },
        Call::Free => Answer::Number {
            number: memory.free(),
        },
        Call::Size => Answer::Number {
            number: memory.size(),
        },
        Call::Hides => Answer::Flag {
            flag: memory.hides(),
        },
        Call::Marks => Answer::Number {
            number: memory.marks(),
        },
        Call::Mark { j } => Answer::Seen {
            mark: memory.mark(j),
        },
        Call::Clear => {
            memory.clear();
            Answer::Done
        }
    }
}

impl fmt::Display for Answer {
    fn fmt<W: fmt::Write>(&self, f: &mut fmt::Formatter<W>) -> fmt::Result {
        match *self {
            Answer::Word { word } => write!(f, "{word:x}"),
            Answer::Number { number } => write!(f, "{number}"),
            Answer::Flag { flag } => write!(f, "{}", u8::from(flag)),
            Answer::Seen { mark: Some(mark) } => write!(f, "{mark}"),
            Answer::Seen { mark: None } => f.write_str("none"),
            Answer::Done => f.write_str("ok"),
            // The words of case files, as trials has them of its own answers: the listing has others.
            Answer::Refused { refusal } => {
                let number = refusal.number();
                let place = refusal.place;
                write!(f, "refused {number} {place}")
            }
        }
    }
}
