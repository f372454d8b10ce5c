// What a bench answers, as lines have it.
use calls::{Answer, Ending, Tally};
use cases::visits::Visits;
use machine::visit::Visit;
use makes::call;
use makes::commas::with_commas;
use makes::hex::Hex;
use program::refusal::Refusal;
use std::fmt;

/// An answer, with the visits of a go.
#[derive(Clone, Copy)]
pub struct Reply<'a> {
    pub answer: Result<Answer, Refusal>,
    pub visits: Option<&'a [Visit]>,
}

impl fmt::Display for Reply<'_> {
    fn fmt<W: fmt::Write>(&self, f: &mut fmt::Formatter<W>) -> fmt::Result {
        match self.answer {
            Ok(answer) => write_answer(answer, f)?,
            Err(refusal) => {
                let refused = call::Answer::Refused { refusal };
                write!(f, "{refused}")?;
            }
        }
        match self.visits {
            Some(visits) => {
                let visits = Visits { visits };
                write!(f, " visits={visits}")
            }
            None => Ok(()),
        }
    }
}

fn write_answer<W: fmt::Write>(answer: Answer, f: &mut fmt::Formatter<W>) -> fmt::Result {
    match answer {
        Answer::Done => f.write_str("ok"),
        Answer::Counts {
            tally: Tally { steps, marks },
        } => write!(f, "ok {steps} {marks}"),
        Answer::Word { word } => write!(f, "ok {word:x}"),
        Answer::Ended { ending } => {
            f.write_str("ok ")?;
            write_ending(ending, f)
        }
    }
}

// Registers 0 to 15, and then register 24.
fn write_ending<W: fmt::Write>(ending: Ending, f: &mut fmt::Formatter<W>) -> fmt::Result {
    let fault = [ending.fault];
    let words = ending.registers.iter().chain(fault.iter());
    with_commas(f, words.map(|word| Hex { number: *word }))
}
