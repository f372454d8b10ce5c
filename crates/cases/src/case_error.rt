// Why a case comes to nothing.
ghost use Rattle.std.specs.Prelude.{◌≡◌, Some};
ghost use Rattle.cases.specs.declared.case_error.CaseError.TheVariants.{Unreadable, Refused, OutOfMemory};
ghost use Rattle.cases.specs.Unread.{without_image, without_words};
ghost use Rattle.cases.specs.Wording.{case_error_text};

use hexadecimal::DecodeError;
use makes::named::Unnamed;
use makes::words::WordsError;
use program::handed_back::HandedBack;
use program::refusal::Refusal;
use std::alloc::AllocError;
use std::error::Error;
use std::fmt;
use trials::answer::Answer;

#[derive(Clone, Copy, Debug, PartialEq, Eq)]
pub enum CaseError {
    /// A kind of case that there is no way to run.
    UnknownKind,
    /// Something that such a case gives is missing, or cannot be read.
    Unreadable,
    Refused(Refusal),
    OutOfMemory(AllocError),
}

impl fmt::Display for CaseError {
    ghost output = { λ why. Some (case_error_text why) };

    fn fmt<W: fmt::Write>(&self, f: &mut fmt::Formatter<W>) -> fmt::Result {
        match *self {
            Self::UnknownKind => f.write_str("no way to run this kind of case"),
            Self::Unreadable => f.write_str("a case that cannot be read"),
            Self::Refused(refusal) => {
                let answer = Answer::Refused { refusal };
                write!(f, "{answer}")
            }
            Self::OutOfMemory(_) => f.write_str("out of memory"),
        }
    }
}

impl Error for CaseError {}

impl From<Refusal> for CaseError {
    ghost from_gives = { λ refusal e. e ≡ Refused refusal };

    fn from(refusal: Refusal) -> CaseError {
        CaseError::Refused(refusal)
    }
}

impl From<HandedBack> for CaseError {
    ghost from_gives = { λ back e. e ≡ Refused back.refusal };

    fn from(back: HandedBack) -> CaseError {
        CaseError::Refused(back.refusal)
    }
}

impl From<AllocError> for CaseError {
    ghost from_gives = { λ full e. e ≡ OutOfMemory full };

    fn from(full: AllocError) -> CaseError {
        CaseError::OutOfMemory(full)
    }
}

impl From<DecodeError> for CaseError {
    ghost from_gives = { λ why e. e ≡ without_image why };

    fn from(why: DecodeError) -> CaseError {
        match why {
            DecodeError::NotHexadecimal => CaseError::Unreadable,
            DecodeError::OutOfMemory(full) => CaseError::OutOfMemory(full),
        }
    }
}

impl From<WordsError> for CaseError {
    ghost from_gives = { λ why e. e ≡ without_words why };

    fn from(why: WordsError) -> CaseError {
        match why {
            WordsError::Unreadable => CaseError::Unreadable,
            WordsError::OutOfMemory(full) => CaseError::OutOfMemory(full),
        }
    }
}

impl From<Unnamed> for CaseError {
    ghost from_gives = { λ why e. e ≡ Unreadable };

    fn from(_why: Unnamed) -> CaseError {
        CaseError::Unreadable
    }
}
