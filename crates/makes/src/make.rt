// What fixes a pile: the make of its leaf, two lengths and the layers.
ghost use Rattle.std.specs.Prelude.{◌≤◌};

use layered::pile::Layers;

/// The make of a leaf.
#[derive(Clone, Copy)]
pub enum LeafKind {
    Flat,
    Banked,
}

/// The longest list that a make may ask for.
pub const MOST: usize = 1_000_000;

/// A pile that is not made yet.
#[derive(Clone, Copy)]
pub struct Make {
    pub kind: LeafKind,
    /// The number of cells of a flat memory.
    pub size: usize,
    /// The length of the list for the marks.
    pub list: usize,
    pub layers: Layers,
    ghost few: { size ≤ 1000000 },
    ghost short: { list ≤ 1000000 },
}
