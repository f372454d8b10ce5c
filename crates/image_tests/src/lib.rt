// Tests of reading and writing images: the edges of every bound.
#![tactic(auto)]

#[cfg(test)]
mod tests;
