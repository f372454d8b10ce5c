// Ways between places.

/// A way from a place to a place, along which labels go as they are.
#[derive(Clone, Copy, Default)]
pub struct Way {
    pub from: usize,
    pub to: usize,
}
