// One instruction on one line.
ghost use Rattle.std.specs.Prelude.{◌≡◌, Some};
ghost use Rattle.fields.specs.Rows.{row_of};
ghost use Rattle.listing.specs.Wording.{operand_text, wording};

use fields::fields::Fields;
use fields::rows;
use fields::rows::{Bound, Row};
use instructions::Instruction;
use outline::names;
use std::fmt;

/// A field of an instruction, behind a space; a field that the op does not use is not shown.
#[derive(Clone, Copy)]
struct Operand {
    bound: Bound,
    value: u32,
}

impl fmt::Display for Operand {
    ghost output = { λ o. Some (operand_text o.bound o.value) };

    fn fmt<W: fmt::Write>(&self, f: &mut fmt::Formatter<W>) -> fmt::Result {
        let value = self.value;
        match self.bound {
            Bound::Unused => f.write_str(""),
            Bound::Register => write!(f, " r{value}"),
            Bound::Table => write!(f, " t{value}"),
            Bound::Word | Bound::Shift | Bound::Rounds => write!(f, " {value}"),
        }
    }
}

fn row(op: u8) -> Row
    ensures { result ≡ row_of op }
{
    rows::row_of(op).unwrap_or(rows::BARE)
}

/// An instruction in words: its op's name, and the fields that the op uses, in the order of the
/// layout.
#[derive(Clone, Copy)]
pub struct Worded {
    pub instruction: Instruction,
}

impl fmt::Display for Worded {
    ghost output = { λ w. Some (wording w.instruction) };

    fn fmt<W: fmt::Write>(&self, f: &mut fmt::Formatter<W>) -> fmt::Result {
        let fields = Fields::from(self.instruction);
        let row = row(fields.op);
        let name = names::name_of(self.instruction);
        let d = Operand {
            bound: row.d,
            value: u32::from(fields.d),
        };
        let a = Operand {
            bound: row.a,
            value: u32::from(fields.a),
        };
        let b = Operand {
            bound: row.b,
            value: u32::from(fields.b),
        };
        let k = Operand {
            bound: row.k,
            value: fields.k,
        };
        write!(f, "{name}{d}{a}{b}{k}")
    }
}

/// An instruction at its place, so many steps in.
#[derive(Clone, Copy)]
pub struct Line {
    pub place: usize,
    pub indent: usize,
    pub instruction: Instruction,
}

impl fmt::Display for Line {
    fn fmt<W: fmt::Write>(&self, f: &mut fmt::Formatter<W>) -> fmt::Result {
        let place = self.place;
        write!(f, "{place:4}  ")?;
        for _ in 0..self.indent {
            f.write_str("  ")?;
        }
        let worded = Worded {
            instruction: self.instruction,
        };
        write!(f, "{worded}")
    }
}
