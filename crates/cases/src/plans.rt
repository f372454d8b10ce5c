// A plan as text.
use makes::commas::with_commas;
use makes::hex::Hex;
use std::fmt;

/// The set of each place as a hexadecimal number, separated by commas.
#[derive(Clone, Copy)]
pub struct Plan<'a> {
    pub sets: &'a [u16],
}

impl fmt::Display for Plan<'_> {
    fn fmt<W: fmt::Write>(&self, f: &mut fmt::Formatter<W>) -> fmt::Result {
        with_commas(f, self.sets.iter().map(|set| Hex { number: *set }))
    }
}
