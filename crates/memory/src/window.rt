// A table, as a memory is asked for it.

/// A row of cells: the first, and how many there are.
#[derive(Clone, Copy, PartialEq, Eq, Debug)]
pub struct Window {
    pub first: usize,
    pub length: usize,
}
