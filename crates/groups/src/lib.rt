// What each op becomes in a converted program, and what a secret if and its else become.
#![tactic(auto)]

pub mod groups;
pub mod output;
