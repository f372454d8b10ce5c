// The plan: the smallest sets of secret registers, a number for each place.
#![tactic(auto)]

mod flow;
pub mod plan;
mod ways;
