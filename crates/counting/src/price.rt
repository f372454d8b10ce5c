// What is counted.
ghost use Rattle.std.specs.Prelude.{◌≤◌};

/// What a read and a write of one table count.
#[derive(Clone, Copy)]
pub struct TablePrice {
    pub read: usize,
    pub write: usize,
}

/// What a step counts, and an access of each table.
#[derive(Clone, Copy)]
pub struct Price {
    pub step: usize,
    pub tables: [TablePrice; 8],
    ghost small: { step ≤ 1 },
}
