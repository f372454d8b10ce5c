// Refusals and their reasons in words.
ghost use Rattle.std.specs.Prelude.{Some};
ghost use Rattle.program.specs.Wording.{reason_text, refusal_text};

use crate::refusal::{Reason, Refusal};
use std::error::Error;
use std::fmt;

impl fmt::Display for Reason {
    ghost output = { λ why. Some (reason_text why) };

    fn fmt<W: fmt::Write>(&self, f: &mut fmt::Formatter<W>) -> fmt::Result {
        f.write_str(match self {
            Reason::NoHeader => "the image is shorter than a header",
            Reason::BadHeader =>
                "a header value is out of range, or a byte that must be zero is not",
            Reason::BadLength => "the image is not as long as its header says",
            Reason::BadField => "an op is unknown, or a field is out of range or must be zero",
            Reason::BadBracket => "a bracket has no partner",
            Reason::TooDeep => "more than eight openings are open together",
            Reason::NoRoomForCode => "the instruction list is shorter than the program",
            Reason::NotASource => "the program is not a source",
            Reason::SecretRepeat => "a repeat is by a secret register",
            Reason::SecretIndex => "an index is secret, and the memory does not hide it",
            Reason::PublicStore =>
                "a store into a public table is masked, or its value or index is secret",
            Reason::TooManySteps => "the most steps are above 1,000,000",
            Reason::NoRoomForResult => "the list is shorter than the result",
            Reason::NoRoomForImage => "the byte list is shorter than the image",
            Reason::AlreadySeated => "a program is seated already",
            Reason::MemoryTooSmall => "the memory is smaller than the tables",
            Reason::NoneSeated => "no program is seated",
            Reason::NoSuchTable => "the program has no such table",
            Reason::IndexTooLarge => "the index is not below the length of the table",
            Reason::NoFreeMarks => "more marks may be left than are free",
            Reason::NoSuchRegister => "no entry register has that number",
            Reason::SecretTable => "the table is secret",
            Reason::NoRoomForVisits => "the visit list is shorter than the most steps",
            Reason::NoOutcome => "no go has been accepted yet",
            Reason::OutsideTable => "the access lies outside its table or the memory",
            Reason::NoRoomForMarks => "the access shows more marks than the seen list has room for",
        })
    }
}

/// A refusal by its number and its place.
impl fmt::Display for Refusal {
    ghost output = { λ e. Some (refusal_text e) };

    fn fmt<W: fmt::Write>(&self, f: &mut fmt::Formatter<W>) -> fmt::Result {
        write!(f, "refused {} at {}", self.number(), self.place)
    }
}

impl Error for Refusal {}
