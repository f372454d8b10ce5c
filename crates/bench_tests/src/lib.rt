// Tests of a bench: texts of calls, played on a flat memory.
#![tactic(auto)]

#[cfg(test)]
mod tests;
