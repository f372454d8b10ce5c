// A program's outline, as a listing shows it: what ops are called, and how far in each instruction
// stands.
#![tactic(auto)]

pub mod depth;
pub mod names;
