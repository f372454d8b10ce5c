// The marks that a call added.
use makes::commas::with_commas;
use memory::Memory;
use std::fmt;

/// The marks from one number on up to another: how many, and which, where the memory still has them.
#[derive(Clone, Copy)]
pub(crate) struct Added<'a, M> {
    pub memory: &'a M,
    pub before: usize,
    pub after: usize,
    pub kept: bool,
}

impl<M: Memory> fmt::Display for Added<'_, M> {
    fn fmt<W: fmt::Write>(&self, f: &mut fmt::Formatter<W>) -> fmt::Result {
        let count = self.after.saturating_sub(self.before);
        write!(f, "    marks {count}")?;
        if count == 0 || !self.kept {
            return Ok(());
        }
        f.write_str(": ")?;
        let memory = self.memory;
        with_commas(f, (self.before..self.after).filter_map(|j| memory.mark(j)))
    }
}
