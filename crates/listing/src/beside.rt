// A result beside its source.
ghost use Rattle.std.specs.Prelude.{Some};
ghost use Rattle.listing.specs.Wording.{part_line_text};

use crate::line::{Line, Worded};
use instructions::Instruction;
use outline::depth;
use std::fmt;

/// An instruction of a result, at its place there.
#[derive(Clone, Copy)]
pub struct PartLine {
    pub place: usize,
    pub instruction: Instruction,
}

impl fmt::Display for PartLine {
    ghost output = { λ l. Some (part_line_text l.place l.instruction) };

    fn fmt<W: fmt::Write>(&self, f: &mut fmt::Formatter<W>) -> fmt::Result {
        let place = self.place;
        let worded = Worded {
            instruction: self.instruction,
        };
        write!(f, "      {place}: {worded}")
    }
}

/// A source and its straight code: below each line of the source the lines that it became, as many as
/// `parts` says of its place.
#[derive(Clone, Copy)]
pub struct Beside<'a> {
    pub source: &'a [Instruction],
    pub straight: &'a [Instruction],
    pub parts: &'a [usize],
}

impl fmt::Display for Beside<'_> {
    fn fmt<W: fmt::Write>(&self, f: &mut fmt::Formatter<W>) -> fmt::Result {
        let mut around = 0;
        let mut first = 0usize;
        for (place, (instruction, long)) in self.source.iter().zip(self.parts).enumerate() {
            let line = Line {
                place,
                indent: depth::indent_of(around, *instruction),
                instruction: *instruction,
            };
            write!(f, "{line}\n")?;
            write_part(self.straight, first, *long, f)?;
            first = first.saturating_add(*long);
            around = depth::open_past(around, *instruction);
        }
        Ok(())
    }
}

// So many lines of straight code, from a place of it on.
fn write_part<W: fmt::Write>(
    straight: &[Instruction],
    first: usize,
    long: usize,
    f: &mut fmt::Formatter<W>,
) -> fmt::Result {
    for (place, instruction) in straight.iter().enumerate().skip(first).take(long) {
        let line = PartLine {
            place,
            instruction: *instruction,
        };
        write!(f, "{line}\n")?;
    }
    Ok(())
}
