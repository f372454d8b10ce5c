// Tests of runs: each kind of step, faults, refusals, and the longest run.
#![tactic(auto)]

#[cfg(test)]
mod tests;
