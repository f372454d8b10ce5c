// Lists of calls as text, a call to a line.
#![tactic(auto)]

mod numbers;
pub mod order;
pub mod script;
pub mod unread;
mod words;
