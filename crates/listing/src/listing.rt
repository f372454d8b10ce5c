// A whole program, line by line.
use crate::heading::{RegisterSet, Sizes, TableLine};
use crate::line::Line;
use crate::secret_note::SecretNote;
use instructions::Instruction;
use labels::sets::has;
use outline::depth;
use program::program::Program;
use std::fmt;

/// A program, to be shown: its header, its tables, and each instruction on a line. Labels are the
/// secret registers on arriving at each place, as a plan writes them, if there are any to show.
#[derive(Clone, Copy)]
pub struct Listing<'p, 'l> {
    pub program: &'p Program,
    pub labels: Option<&'l [u16]>,
}

impl fmt::Display for Listing<'_, '_> {
    fn fmt<W: fmt::Write>(&self, f: &mut fmt::Formatter<W>) -> fmt::Result {
        write_heading(self.program, f)?;
        write_tables(self.program, f)?;
        write_code(self.program.code(), self.labels, f)
    }
}

fn write_heading<W: fmt::Write>(program: &Program, f: &mut fmt::Formatter<W>) -> fmt::Result {
    let header = program.header();
    let sizes = Sizes { header };
    let secrets = RegisterSet {
        registers: header.secret_entry,
    };
    write!(f, "{sizes}\nsecret entry registers:{secrets}\n")
}

fn write_tables<W: fmt::Write>(program: &Program, f: &mut fmt::Formatter<W>) -> fmt::Result {
    let header = program.header();
    let used = usize::from(header.used);
    for (number, table) in header.tables.iter().take(used).enumerate() {
        let line = TableLine {
            number,
            first: header.first_cell(number),
            table: *table,
        };
        write!(f, "{line}\n")?;
    }
    Ok(())
}

fn write_code<W: fmt::Write>(
    code: &[Instruction],
    labels: Option<&[u16]>,
    f: &mut fmt::Formatter<W>,
) -> fmt::Result {
    let mut around = 0;
    for (place, instruction) in code.iter().enumerate() {
        let line = Line {
            place,
            indent: depth::indent_of(around, *instruction),
            instruction: *instruction,
        };
        let note = note_at(labels, place, *instruction);
        write!(f, "{line}{note}\n")?;
        around = depth::open_past(around, *instruction);
    }
    Ok(())
}

fn note_at(labels: Option<&[u16]>, place: usize, instruction: Instruction) -> SecretNote {
    // No plan shows as the empty set does: nothing.
    let secret = labels
        .and_then(|labels| labels.get(place))
        .copied()
        .unwrap_or(0);
    let branches = match instruction {
        Instruction::If { condition } => has(secret, condition),
        _ => false,
    };
    SecretNote { secret, branches }
}
