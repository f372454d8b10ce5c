// Which registers are secret where: the rules, and the smallest sets that keep them.
#![tactic(auto)]

pub mod marks;
pub mod sets;
pub mod start;
pub mod way;
