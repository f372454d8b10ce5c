// Piles of memories, and code over any memory that rests on its laws alone.
#![tactic(auto)]

pub mod built;
pub mod operations;
pub mod pairs;
#[cfg(test)]
mod tests;
