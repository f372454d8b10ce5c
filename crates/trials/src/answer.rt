// What a trial answers.
ghost use Rattle.std.specs.Prelude.{◌≡◌, Some, if◌then◌else◌};
ghost use Rattle.trials.specs.declared.answer.Answer.TheVariants.{Written, OtherBytes, Disturbed};
ghost use Rattle.trials.specs.Answers.{untouched, judged, answer_text};

use program::header::Kind;
use program::refusal::Refusal;
use std::fmt;

/// What stands in a byte list before something is written into it.
pub const UNTOUCHED: u8 = 0xa5;

#[derive(Clone, Copy)]
pub enum Answer {
    Read { kind: Kind, count: u16 },
    Written { length: usize },
    // A refusal is one of the answers that a case expects, and no error of the call.
    Refused { refusal: Refusal },
    /// Bytes were written that are not those of the image.
    OtherBytes,
    /// Bytes changed that had to stay.
    Disturbed,
}

impl fmt::Display for Answer {
    ghost output = { λ a. Some (answer_text a) };

    fn fmt<W: fmt::Write>(&self, f: &mut fmt::Formatter<W>) -> fmt::Result {
        match *self {
            Answer::Read { kind, count } => {
                let kind = kind as u8;
                write!(f, "ok kind={kind} n={count}")
            }
            Answer::Written { length } => write!(f, "ok {length}"),
            // The words of case files. What a memory answers is shown so too, and shares nothing else with this.
            Answer::Refused { refusal } => {
                let number = refusal.number();
                let place = refusal.place;
                write!(f, "refused {number} {place}")
            }
            Answer::OtherBytes => f.write_str("altered"),
            Answer::Disturbed => f.write_str("disturbed"),
        }
    }
}

/// The answer of writing an image, once the bytes are looked at: those written are the image's,
/// and all others are untouched.
pub fn judge(answer: Result<usize, Refusal>, out: &[u8], image: &[u8]) -> Answer
    ensures { result ≡ judged answer out.now image.now }
{
    match answer {
        Ok(length) => {
            let (front, behind) = out.split_at(length.min(out.len()));
            judge_parts(length, front == image, is_untouched(behind))
        }
        Err(refusal) if is_untouched(out) => Answer::Refused { refusal },
        Err(_) => Answer::Disturbed,
    }
}

fn judge_parts(length: usize, same: bool, stayed: bool) -> Answer
    ensures { result ≡ (if stayed then (if same then Written length else OtherBytes) else Disturbed) }
{
    match (stayed, same) {
        (true, true) => Answer::Written { length },
        (true, false) => Answer::OtherBytes,
        (false, _) => Answer::Disturbed,
    }
}

fn is_untouched(bytes: &[u8]) -> bool
    ensures { result ≡ untouched bytes.now }
{
    bytes.iter().all(|byte| *byte == UNTOUCHED)
}
