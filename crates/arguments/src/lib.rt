// What the words behind the program's name ask for.
#![tactic(auto)]

pub mod argument_error;
pub mod arguments;
