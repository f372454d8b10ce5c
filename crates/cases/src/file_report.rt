// The report on a case file, in lines.
use std::fmt;
use tally::report::Report;

/// A report under the file's name, to be shown: the tally, and each note on a line.
#[derive(Clone, Copy)]
pub struct FileReport<'a> {
    pub name: &'a str,
    pub report: &'a Report,
}

impl fmt::Display for FileReport<'_> {
    fn fmt<W: fmt::Write>(&self, f: &mut fmt::Formatter<W>) -> fmt::Result {
        let name = self.name;
        let tally = self.report.tally;
        writeln!(f, "{name} {tally}")?;
        for note in self.report.notes.iter() {
            writeln!(f, "  {note}")?;
        }
        Ok(())
    }
}
