// Lists of calls, played on a bench.
#![tactic(auto)]

pub mod entry;
pub mod play;
