// The machine that runs a program, place by place: its definition is in specs/. The code here is
// what every part of a run is built from.
#![tactic(auto)]

pub mod places;
pub mod repeat;
pub mod visit;
pub mod words;
