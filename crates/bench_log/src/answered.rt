// What a call answered, in words.
use crate::taken::Kind;
use calls::{Answer, Ending, Tally};
use program::refusal::Refusal;
use report::ran::Registers;
use std::fmt;

/// An answer, to be shown. What a seat counts is the most of the program.
#[derive(Clone, Copy)]
pub(crate) struct Answered {
    pub kind: Kind,
    pub answer: Result<Answer, Refusal>,
}

impl fmt::Display for Answered {
    fn fmt<W: fmt::Write>(&self, f: &mut fmt::Formatter<W>) -> fmt::Result {
        match self.answer {
            Ok(answer) => write_answer(answer, self.kind, f),
            Err(refusal) => {
                let why = refusal.reason;
                write!(f, "    {refusal}: {why}")
            }
        }
    }
}

fn write_answer<W: fmt::Write>(
    answer: Answer,
    kind: Kind,
    f: &mut fmt::Formatter<W>,
) -> fmt::Result {
    match answer {
        Answer::Done => f.write_str("    ok"),
        Answer::Counts { tally } => write_counts(tally, kind, f),
        Answer::Word { word } => write!(f, "    ok: {word}, 0x{word:x}"),
        Answer::Ended { ending } => write_ending(ending, f),
    }
}

fn write_counts<W: fmt::Write>(tally: Tally, kind: Kind, f: &mut fmt::Formatter<W>) -> fmt::Result {
    let Tally { steps, marks } = tally;
    if kind == Kind::Seat {
        write!(f, "    ok: most steps {steps}, most marks {marks}")
    } else {
        write!(f, "    ok: steps {steps}, marks {marks}")
    }
}

fn write_ending<W: fmt::Write>(ending: Ending, f: &mut fmt::Formatter<W>) -> fmt::Result {
    let words = &ending.registers;
    let registers = Registers { words };
    write!(f, "    ok: {registers}")?;
    match ending.fault.checked_sub(1) {
        Some(place) => write!(f, ", fault at {place}"),
        None => f.write_str(", no fault"),
    }
}
