// A bracket that is open, as the pass that counts keeps it.

// One row serves ifs and repeats, and what the other kind needs stays 0: from an enum each reader would take the same
// three numbers, or these zeros.
/// What was counted before the bracket, what the arm before an else counts with the step of that
/// else, and how often a repeat goes round.
#[derive(Clone, Copy, Default)]
pub struct OpenBracket {
    pub before: usize,
    pub first_arm: usize,
    pub rounds: usize,
}
