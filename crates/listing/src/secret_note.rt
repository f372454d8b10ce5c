// What is secret at a place, beside its instruction.
use crate::heading::RegisterSet;
use std::fmt;

// Both are shown; a place without a plan shows what one with no secret register does, nothing.
/// The secret registers on arriving at a place, and whether its if branches by one of them. Nothing
/// is shown where all is public.
#[derive(Clone, Copy)]
pub struct SecretNote {
    pub secret: u16,
    pub branches: bool,
}

impl fmt::Display for SecretNote {
    fn fmt<W: fmt::Write>(&self, f: &mut fmt::Formatter<W>) -> fmt::Result {
        if self.secret == 0 {
            return Ok(());
        }
        let set = RegisterSet {
            registers: self.secret,
        };
        if self.branches {
            write!(f, "    ; secret if; secret:{set}")
        } else {
            write!(f, "    ; secret:{set}")
        }
    }
}
