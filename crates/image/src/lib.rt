// Program images: reading and writing.
#![tactic(auto)]

pub mod reader;
pub mod writer;
