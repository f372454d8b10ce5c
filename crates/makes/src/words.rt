// Lists of words as text.
ghost use Rattle.std.specs.Prelude.{◌≡◌, ◌≤◌, Some, IfOk, vec_len, alloc_error};
ghost use Rattle.makes.specs.Wording.{words_error_text};
ghost use Rattle.makes.specs.declared.words.WordsError.TheVariants.{Unreadable, OutOfMemory};

use crate::make::MOST;
use std::alloc::{AllocError, AllocFailed, Global};
use std::error::Error;
use std::fmt;
use std::num::ParseIntError;

/// Why nothing comes of a list of words.
#[derive(Clone, Copy, Debug, PartialEq, Eq)]
pub enum WordsError {
    /// They cannot be read, or do not fit where they go.
    Unreadable,
    OutOfMemory(AllocError),
}

impl fmt::Display for WordsError {
    ghost output = { λ why. Some (words_error_text why) };

    fn fmt<W: fmt::Write>(&self, f: &mut fmt::Formatter<W>) -> fmt::Result {
        f.write_str(match self {
            Self::Unreadable => "words that cannot be read",
            Self::OutOfMemory(_) => "out of memory",
        })
    }
}

impl Error for WordsError {}

impl From<ParseIntError> for WordsError {
    ghost from_gives = { λ number e. e ≡ Unreadable };

    fn from(_number: ParseIntError) -> WordsError {
        WordsError::Unreadable
    }
}

impl From<AllocError> for WordsError {
    ghost from_gives = { λ full e. e ≡ OutOfMemory full };

    fn from(full: AllocError) -> WordsError {
        WordsError::OutOfMemory(full)
    }
}

impl<T: Drop> From<AllocFailed<T>> for WordsError {
    ghost from_gives = { λ full e. e ≡ OutOfMemory alloc_error };

    fn from(full: AllocFailed<T>) -> WordsError {
        AllocError::from(full).into()
    }
}

/// The words of a text, hexadecimal and separated by commas, `-` for none, at most 1,000,000.
pub fn words(heap: Global, text: &str) -> Result<Vec<u32>, WordsError>
    ensures { IfOk result (λ words. vec_len words ≤ 1000000) }
{
    let mut words = Vec::new(heap);
    if text == "-" {
        return Ok(words);
    }
    // A loop, since it stops at the first that cannot be read.
    for part in text.split(',') {
        words.push(u32::from_str_radix(part, 16)?)?;
        if words.len() > MOST {
            return Err(WordsError::Unreadable);
        }
    }
    Ok(words)
}
