// Cases that were worked by hand: small routines, and what converting and running them comes to.
#![tactic(auto)]

pub mod routine;
#[cfg(test)]
mod tests;
