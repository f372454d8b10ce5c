// What a program is: instructions, tables, header, the invariant that every program keeps, and
// the refusals of everything that handles one.
#![tactic(auto)]

pub mod handed_back;
pub mod header;
pub mod opening;
pub mod program;
pub mod refusal;
pub mod wording;
