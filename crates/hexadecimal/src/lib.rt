// Bytes as pairs of hexadecimal digits, the high one first.
#![tactic(auto)]

ghost use Rattle.std.specs.Prelude.{◌≡◌, ℕ, List, Some, MatchResult, alloc_error};
ghost use Rattle.hexadecimal.specs.Spelling.{digit_of, byte_of, Spells};
ghost use Rattle.hexadecimal.specs.Wording.{decode_error_text};
ghost use Rattle.hexadecimal.specs.declared.DecodeError.TheVariants.{NotHexadecimal, OutOfMemory};

#[cfg(test)]
mod tests;

use std::alloc::{AllocError, AllocFailed, Global};
use std::error::Error;
use std::fmt;

/// What a digit stands for; capital letters are no digits.
pub fn digit(code: u8) -> Option<u8>
    ensures { result ≡ digit_of code }
{
    match code {
        b'0'..=b'9' => Some(code - b'0'),
        b'a'..=b'f' => Some(code - b'a' + 10),
        _ => None,
    }
}

/// The byte of two digits.
pub fn byte(high: u8, low: u8) -> Option<u8>
    ensures { result ≡ byte_of high low }
{
    let high = digit(high)?;
    let low = digit(low)?;
    Some(16 * high + low)
}

/// Why a text gives no bytes.
#[derive(Clone, Copy, Debug, PartialEq, Eq)]
pub enum DecodeError {
    /// The text spells no bytes.
    NotHexadecimal,
    OutOfMemory(AllocError),
}

impl fmt::Display for DecodeError {
    ghost output = { λ why. Some (decode_error_text why) };

    fn fmt<W: fmt::Write>(&self, f: &mut fmt::Formatter<W>) -> fmt::Result {
        f.write_str(match self {
            Self::NotHexadecimal => "not hexadecimal",
            Self::OutOfMemory(_) => "out of memory",
        })
    }
}

impl Error for DecodeError {}

impl<T: Drop> From<AllocFailed<T>> for DecodeError {
    ghost from_gives = { λ full e. e ≡ OutOfMemory alloc_error };

    fn from(full: AllocFailed<T>) -> DecodeError {
        DecodeError::OutOfMemory(full.into())
    }
}

/// The bytes that a text spells.
pub fn decode(heap: Global, text: &[u8]) -> Result<Vec<u8>, DecodeError>
    ensures { MatchResult result (λ bytes. Spells text.now bytes.items) (λ e. e ≡ NotHexadecimal → (bytes : List ℕ) → Spells text.now bytes → ⊥) }
{
    let (pairs, []) = text.as_chunks::<2>() else {
        return Err(DecodeError::NotHexadecimal);
    };
    let mut bytes = Vec::new(heap);
    // A loop, since it stops at the first that cannot be read.
    for [high, low] in pairs {
        bytes.push(byte(*high, *low).ok_or(DecodeError::NotHexadecimal)?)?;
    }
    Ok(bytes)
}
