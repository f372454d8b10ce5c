// The header of an image: 64 bytes.
#![tactic(auto)]

pub mod decode;
pub mod encode;
