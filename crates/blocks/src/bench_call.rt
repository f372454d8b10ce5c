// Calls of a bench, as lines have them.
use crate::call_words::words;
use crate::line_error::LineError;
use calls::{Call, MOST_VISITS};
use std::alloc::Global;

pub(crate) fn call_of(heap: Global, text: &str) -> Result<Call, LineError> {
    Ok(match words(text)?.as_slice() {
        ["seat", image] => Call::Seat {
            image: bytes(heap, image)?,
        },
        ["put", table, index, word] => Call::Put {
            table: table.parse()?,
            index: index.parse()?,
            word: u32::from_str_radix(word, 16)?,
        },
        ["arg", register, word] => Call::Arg {
            register: register.parse()?,
            word: u32::from_str_radix(word, 16)?,
        },
        ["go", room] => Call::Go {
            room: length(room)?,
        },
        ["look", table, index] => Call::Look {
            table: table.parse()?,
            index: index.parse()?,
        },
        ["open", table, index] => Call::Open {
            table: table.parse()?,
            index: index.parse()?,
        },
        ["outcome"] => Call::Outcome,
        ["clear"] => Call::Clear,
        _ => return Err(LineError::Unreadable),
    })
}

// The bytes of a text, `-` for none.
fn bytes(heap: Global, text: &str) -> Result<Vec<u8>, LineError> {
    if text == "-" {
        return Ok(Vec::new(heap));
    }
    Ok(hexadecimal::decode(heap, text.as_bytes())?)
}

// The length of a visit list: no go needs more than the most visits.
fn length(text: &str) -> Result<usize, LineError> {
    match text.parse::<usize>() {
        Ok(length) if length <= MOST_VISITS => Ok(length),
        _ => Err(LineError::Unreadable),
    }
}
