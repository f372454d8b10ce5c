// One step of a run.
#![tactic(auto)]

pub mod access;
pub mod layout;
mod op;
pub mod state;
