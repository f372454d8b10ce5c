// Piles that are chosen at run time: one type for every pile of up to four layers.
#![tactic(auto)]

pub mod chosen;
pub mod leaves;
pub mod pile;
