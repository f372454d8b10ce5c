// Calls to a memory, as lines have them.
use crate::call_words::words;
use crate::line_error::LineError;
use makes::call::Call;
use memory::Access;
use memory::window::Window;

pub(crate) fn call_of(text: &str) -> Result<Call, LineError> {
    Ok(match words(text)?.as_slice() {
        ["read", base, len, off] => Call::Read {
            table: table(base, len)?,
            off: off.parse()?,
        },
        ["write", base, len, off, word] => Call::Write {
            table: table(base, len)?,
            off: off.parse()?,
            word: u32::from_str_radix(word, 16)?,
        },
        ["cost", "r", len] => Call::Cost {
            access: Access::Read,
            len: len.parse()?,
        },
        ["cost", "w", len] => Call::Cost {
            access: Access::Write,
            len: len.parse()?,
        },
        ["mark", j] => Call::Mark { j: j.parse()? },
        ["free"] => Call::Free,
        ["size"] => Call::Size,
        ["hides"] => Call::Hides,
        ["marks"] => Call::Marks,
        ["clear"] => Call::Clear,
        _ => return Err(LineError::Unreadable),
    })
}

fn table(base: &str, len: &str) -> Result<Window, LineError> {
    Ok(Window {
        first: base.parse()?,
        length: len.parse()?,
    })
}
