// Words and marks as text.
use crate::commas::with_commas;
use crate::hex::Hex;
use memory::Memory;
use std::fmt;

/// Words in hexadecimal, separated by commas: trailing zeros are left out, and `-` stands for none.
#[derive(Clone, Copy)]
pub struct Words<'a> {
    pub words: &'a [u32],
}

// How many words there are up to the last that is not 0.
fn counting(words: &[u32]) -> usize {
    words
        .iter()
        .rposition(|word| *word != 0)
        .map_or(0, |last| last + 1)
}

impl fmt::Display for Words<'_> {
    fn fmt<W: fmt::Write>(&self, f: &mut fmt::Formatter<W>) -> fmt::Result {
        let count = counting(self.words);
        if count == 0 {
            return f.write_str("-");
        }
        with_commas(
            f,
            self.words
                .iter()
                .take(count)
                .map(|word| Hex { number: *word }),
        )
    }
}

/// The marks seen of a memory, separated by commas; `-` stands for none.
#[derive(Clone, Copy)]
pub struct Seen<'a, M> {
    pub memory: &'a M,
}

impl<M: Memory> fmt::Display for Seen<'_, M> {
    fn fmt<W: fmt::Write>(&self, f: &mut fmt::Formatter<W>) -> fmt::Result {
        let mut marks = (0..self.memory.marks())
            .filter_map(|j| self.memory.mark(j))
            .peekable();
        if marks.peek().is_none() {
            return f.write_str("-");
        }
        with_commas(f, marks)
    }
}
