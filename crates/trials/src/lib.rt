// Images tried: what reading and writing them answers, over lists that are used again.
#![tactic(auto)]

pub mod answer;
pub mod room;
