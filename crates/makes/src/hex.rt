// Numbers in hexadecimal.
use std::fmt;

/// A number in hexadecimal, in small letters.
#[derive(Clone, Copy)]
pub struct Hex<T> {
    pub number: T,
}

impl<T: fmt::Radix + Copy> fmt::Display for Hex<T> {
    fn fmt<W: fmt::Write>(&self, f: &mut fmt::Formatter<W>) -> fmt::Result {
        write!(f, "{:x}", self.number)
    }
}
