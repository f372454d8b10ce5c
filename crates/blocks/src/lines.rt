// A line of a case file, and what it asks for.

/// A line, or the part of it that is left, and its number.
#[derive(Clone, Copy)]
pub struct Line<'a> {
    pub number: usize,
    pub text: &'a str,
}

/// What a line asks for.
#[derive(Clone, Copy)]
pub enum Asked<'a> {
    Seen,
    Cells,
    Call(&'a str),
}

impl<'a> Line<'a> {
    // A line with no " = " expects nothing that any answer could be, so an empty text says it.
    /// What the line asks for, and what it expects.
    pub(crate) fn parts(self) -> (Asked<'a>, &'a str) {
        if let Some(marks) = self.text.strip_prefix("seen ") {
            return (Asked::Seen, marks);
        }
        if let Some(cells) = self.text.strip_prefix("cells ") {
            return (Asked::Cells, cells);
        }
        match self.text.split_once(" = ").unwrap_or((self.text, "")) {
            ("seen", expected) => (Asked::Seen, expected),
            ("cells", expected) => (Asked::Cells, expected),
            (call, expected) => (Asked::Call(call), expected),
        }
    }
}
