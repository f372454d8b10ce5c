// A bench: a program on a memory, and the calls of its user.
#![tactic(auto)]

mod asking;
pub mod bench;
mod calling;
mod lists;
mod making;
mod running;
mod seating;
mod setting;
mod tables;
