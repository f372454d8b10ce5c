// A refusal of what was given a list.
use crate::refusal::Refusal;
use instructions::Instruction;

/// What is refused, and the list that was handed in, as it was.
#[derive(Drop)]
pub struct HandedBack {
    pub refusal: Refusal,
    pub list: Vec<Instruction>,
}
