// What is open around a place, and which ifs are secret: whether the place is masked, and how often.
#![tactic(auto)]

pub mod masks;
