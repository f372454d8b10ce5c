// The words of a call, as a line has them.

use crate::line_error::LineError;
use arrayvec::ArrayVec;

/// The words of a line that asks for a call. No call has more than five, and a line of more is none: so a
/// line takes nothing from the heap, however long it is.
pub(crate) fn words(text: &str) -> Result<ArrayVec<&str, 5>, LineError> {
    let mut words = ArrayVec::new();
    for word in text.split(' ') {
        if words.is_full() {
            return Err(LineError::Unreadable);
        }
        words.push(word);
    }
    Ok(words)
}
