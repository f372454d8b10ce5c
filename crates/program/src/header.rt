// What stands in front of the instructions.
ghost use Rattle.std.specs.Prelude.{◌≡◌, ◌≤◌, length, Some};
ghost use Rattle.program.specs.Headers.{registers_of, longest, kind_name, NamesKind, cells_of, first_cell};

use std::fmt;

/// A source as an engineer writes it, or straight code that a converter made. The discriminant is
/// the kind's number in an image.
#[derive(Clone, Copy, PartialEq, Eq, Debug)]
pub enum Kind {
    Source = 0,
    Converted = 1,
}

/// A number that no kind of program has.
#[derive(Clone, Copy, PartialEq, Eq, Debug)]
pub struct UnknownKind(pub u8);

impl TryFrom<u8> for Kind {
    type Error = UnknownKind;

    ghost try_from_gives = { NamesKind };

    fn try_from(number: u8) -> Result<Kind, UnknownKind> {
        match number {
            0 => Ok(Kind::Source),
            1 => Ok(Kind::Converted),
            _ => Err(UnknownKind(number)),
        }
    }
}

impl fmt::Display for Kind {
    ghost output = { λ kind. Some (kind_name kind) };

    fn fmt<W: fmt::Write>(&self, f: &mut fmt::Formatter<W>) -> fmt::Result {
        f.write_str(self.name())
    }
}

impl Kind {
    /// What a kind is called.
    pub fn name(self) -> &'static str
        ensures { result.now ≡ kind_name self }
    {
        match self {
            Kind::Source => "source",
            Kind::Converted => "converted",
        }
    }

    /// How many registers a program of this kind has.
    pub fn registers(self) -> u8
        ensures { result ≡ registers_of self }
    {
        match self {
            Kind::Source => 16,
            Kind::Converted => 32,
        }
    }

    /// The most instructions that a program of this kind has.
    pub fn longest(self) -> u16
        ensures { result ≡ longest self }
    {
        match self {
            Kind::Source => 200,
            Kind::Converted => 3000,
        }
    }
}

/// A table: how many cells it has, and whether they are secret. An unused entry has no cells.
#[derive(Clone, Copy)]
pub struct Table {
    pub length: u16,
    pub secret: bool,
}

impl Table {
    /// An entry that is not used.
    pub const UNUSED: Table = Table {
        length: 0,
        secret: false,
    };
}

// An image has eight entries, used or not, and a header is copied: so the array, with a count beside it.
/// What stands in front of a program's instructions. The tables lie one after another from cell 0;
/// entries from `used` on are not used.
#[derive(Clone, Copy)]
pub struct Header {
    pub kind: Kind,
    pub tables: [Table; 8],
    pub used: u8,
    /// The number of instructions.
    pub count: u16,
    /// The secret entry registers, bit i for register i.
    pub secret_entry: u16,
}

fn cells(tables: &[Table]) -> u32
    requires { length tables.now ≤ 8 }
    ensures { result ≡ cells_of tables.now }
{
    tables.iter().map(|table| u32::from(table.length)).sum()
}

impl Header {
    /// How many cells the tables have together.
    pub fn cells(&self) -> u32
        ensures { result ≡ cells_of self.now.tables }
    {
        cells(&self.tables)
    }

    /// The first cell of a table; past the last table, the number of cells in all.
    pub fn first_cell(&self, table: usize) -> u32
        ensures { result ≡ first_cell self.now.tables table }
    {
        cells(&self.tables[..table.min(8)])
    }
}
