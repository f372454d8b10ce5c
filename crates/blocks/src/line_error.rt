// Why a line comes to nothing.
use crate::lines::Line;
use hexadecimal::DecodeError;
use makes::named::Unnamed;
use makes::words::WordsError;
use std::alloc::{AllocError, Global};
use std::num::ParseIntError;

// No Display: the text has the line and its number in it.
#[derive(Clone, Copy)]
pub enum LineError {
    Unreadable,
    /// The memory that it names is none.
    Unnamed(Unnamed),
    OutOfMemory(AllocError),
}

impl LineError {
    /// What is said of the line; only of memory that runs out is nothing said.
    pub(crate) fn text(self, heap: Global, line: Line) -> Result<String, AllocError> {
        let number = line.number;
        match self {
            LineError::Unreadable => {
                let text = line.text;
                format!(in heap; "line {number}: it cannot be read: {text}")
            }
            LineError::Unnamed(why) => format!(in heap; "line {number}: {why}"),
            LineError::OutOfMemory(full) => Err(full),
        }
    }
}

impl From<AllocError> for LineError {
    fn from(full: AllocError) -> LineError {
        LineError::OutOfMemory(full)
    }
}

impl From<ParseIntError> for LineError {
    fn from(_number: ParseIntError) -> LineError {
        LineError::Unreadable
    }
}

impl From<Unnamed> for LineError {
    fn from(why: Unnamed) -> LineError {
        LineError::Unnamed(why)
    }
}

impl From<WordsError> for LineError {
    fn from(why: WordsError) -> LineError {
        match why {
            WordsError::Unreadable => LineError::Unnamed(Unnamed::Unreadable),
            WordsError::OutOfMemory(full) => LineError::OutOfMemory(full),
        }
    }
}

impl From<DecodeError> for LineError {
    fn from(why: DecodeError) -> LineError {
        match why {
            DecodeError::NotHexadecimal => LineError::Unreadable,
            DecodeError::OutOfMemory(full) => LineError::OutOfMemory(full),
        }
    }
}
