// An instruction as the image has it: an op and four more fields, in eight bytes.
#![tactic(auto)]

pub mod codec;
pub mod fields;
pub mod rows;
