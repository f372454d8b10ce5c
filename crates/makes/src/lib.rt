// Memories that are named by text, and calls to them.
#![tactic(auto)]

pub mod built;
pub mod call;
pub mod commas;
pub mod hex;
pub mod make;
pub mod named;
pub mod shown;
pub mod words;
