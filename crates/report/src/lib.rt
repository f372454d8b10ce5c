// What a program counts, and what a run of it leaves, in lines.
#![tactic(auto)]

pub mod bounds;
pub mod converted;
pub mod ran;
