// Brackets: what is open around a place, and what a row of instructions with paired brackets is.
#![tactic(auto)]

pub mod openings;
