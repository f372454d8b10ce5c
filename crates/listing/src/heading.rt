// What the header says, in lines.
ghost use Rattle.std.specs.Prelude.{◌≡◌, Some};
ghost use Rattle.listing.specs.Wording.{label_text, table_text, sizes_text};

use labels::sets::has;
use program::header::{Header, Table};
use std::fmt;

/// The kind, and how many instructions, tables and cells there are.
#[derive(Clone, Copy)]
pub struct Sizes {
    pub header: Header,
}

impl fmt::Display for Sizes {
    ghost output = { λ s. Some (sizes_text s.header) };

    fn fmt<W: fmt::Write>(&self, f: &mut fmt::Formatter<W>) -> fmt::Result {
        let kind = self.header.kind;
        let count = self.header.count;
        let used = self.header.used;
        let cells = self.header.cells();
        write!(
            f,
            "{kind}: instructions {count}, tables {used}, cells {cells}"
        )
    }
}

/// A set of registers, bit i for register i, each behind a space.
#[derive(Clone, Copy)]
pub struct RegisterSet {
    pub registers: u16,
}

impl fmt::Display for RegisterSet {
    fn fmt<W: fmt::Write>(&self, f: &mut fmt::Formatter<W>) -> fmt::Result {
        if self.registers == 0 {
            return f.write_str(" none");
        }
        for register in 0..16u8 {
            if has(self.registers, register) {
                write!(f, " r{register}")?;
            }
        }
        Ok(())
    }
}

/// A table with its number and its first cell.
#[derive(Clone, Copy)]
pub struct TableLine {
    pub number: usize,
    pub first: u32,
    pub table: Table,
}

impl fmt::Display for TableLine {
    ghost output = { λ l. Some (table_text l.number l.first l.table) };

    fn fmt<W: fmt::Write>(&self, f: &mut fmt::Formatter<W>) -> fmt::Result {
        let number = self.number;
        let first = self.first;
        let length = self.table.length;
        let label = label(self.table.secret);
        write!(
            f,
            "table t{number}: first cell {first}, length {length}, {label}"
        )
    }
}

fn label(secret: bool) -> &'static str
    ensures { result.now ≡ label_text secret }
{
    if secret { "secret" } else { "public" }
}
