// Lines that are no calls.
ghost use Rattle.std.specs.Prelude.{◌≡◌, Some};
ghost use Rattle.script.specs.Wording.{unread_text, stop_text};

use std::error::Error;
use std::fmt;

/// Why a line is no call.
#[derive(Clone, Copy, PartialEq, Eq, Debug)]
pub enum Unread {
    /// There is no call of this name.
    NoSuchCall,
    /// What stands behind the name is not what the call takes.
    NotItsArguments,
}

impl fmt::Display for Unread {
    ghost output = { λ why. Some (unread_text why) };

    fn fmt<W: fmt::Write>(&self, f: &mut fmt::Formatter<W>) -> fmt::Result {
        f.write_str(match self {
            Self::NoSuchCall => "no such call",
            Self::NotItsArguments => "not what this call takes",
        })
    }
}

impl Error for Unread {}

/// The first line that is no call, by its number from 1 on, and why.
#[derive(Clone, Copy, PartialEq, Eq, Debug)]
pub struct Stop {
    pub line: usize,
    pub why: Unread,
}

impl fmt::Display for Stop {
    ghost output = { λ stop. Some (stop_text stop) };

    fn fmt<W: fmt::Write>(&self, f: &mut fmt::Formatter<W>) -> fmt::Result {
        let line = self.line;
        let why = self.why;
        write!(f, "line {line}: {why}")
    }
}

impl Error for Stop {}
