// Where a script ends before its last line.
use script::unread::Stop;
use std::fmt;

/// Why the calls end before the script does.
#[derive(Clone, Copy)]
pub(crate) enum Halt<'a> {
    NoCall(Stop),
    /// The file of an image cannot be read.
    NoImage { number: usize, text: &'a str },
}

impl fmt::Display for Halt<'_> {
    fn fmt<W: fmt::Write>(&self, f: &mut fmt::Formatter<W>) -> fmt::Result {
        match *self {
            Halt::NoCall(stop) => write!(f, "{stop}"),
            Halt::NoImage { number, text } => {
                write!(f, "line {number}: the image cannot be read: {text}")
            }
        }
    }
}
