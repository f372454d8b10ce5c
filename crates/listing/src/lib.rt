// Programs as text for people.
#![tactic(auto)]

pub mod beside;
pub mod heading;
pub mod line;
pub mod listing;
pub mod secret_note;
pub mod written;
