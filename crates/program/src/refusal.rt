// What is refused, and where.
ghost use Rattle.std.specs.Prelude.{◌≡◌};
ghost use Rattle.program.specs.Refusals.{number_of, refusal};

/// Why something is refused; the discriminant is the number that is reported.
#[derive(Clone, Copy, PartialEq, Eq, Debug)]
pub enum Reason {
    /// An image shorter than a header.
    NoHeader = 1,
    /// A header value out of range, or a byte that is not zero and should be.
    BadHeader = 3,
    /// An image that is not as long as its header says.
    BadLength = 4,
    /// An unknown op, a field out of range, or an unused field that is not zero.
    BadField = 5,
    /// A bracket without its partner.
    BadBracket = 6,
    /// A ninth opening.
    TooDeep = 7,
    /// An instruction list shorter than the program.
    NoRoomForCode = 8,
    /// A program that is not a source where a source is asked for.
    NotASource = 10,
    /// A repeat by a secret register.
    SecretRepeat = 11,
    /// A secret index into a table of a memory that does not hide it.
    SecretIndex = 12,
    /// A store into a public table that is masked, or of a secret value or at a secret index.
    PublicStore = 13,
    /// A program whose most steps are above 1,000,000.
    TooManySteps = 14,
    /// A list shorter than the result that is written into it.
    NoRoomForResult = 15,
    /// A byte list shorter than the image.
    NoRoomForImage = 16,
    /// A program is seated already.
    AlreadySeated = 20,
    /// A memory smaller than the tables.
    MemoryTooSmall = 21,
    /// No program is seated.
    NoneSeated = 22,
    /// No such table.
    NoSuchTable = 23,
    /// An index that is not below the length of its table.
    IndexTooLarge = 24,
    /// The marks that may be left are above what is free.
    NoFreeMarks = 25,
    /// A register above 15.
    NoSuchRegister = 26,
    /// A look into a secret table.
    SecretTable = 27,
    /// A visit list shorter than the most steps.
    NoRoomForVisits = 28,
    /// No go has been accepted yet.
    NoOutcome = 29,
    /// An access outside its table, or to a table that is not within the cells.
    OutsideTable = 30,
    /// An access that shows more marks than the seen list has room for.
    NoRoomForMarks = 31,
}

impl Reason {
    /// The refusal at a place.
    pub fn at(self, place: usize) -> Refusal
        ensures { result ≡ refusal self place }
    {
        Refusal {
            reason: self,
            place,
        }
    }
}

// The 0 is what is reported: with an Option in its place each reader would put it back.
/// A refusal: a reason, and a place that is 0 where the reason has none.
#[derive(Clone, Copy, PartialEq, Eq, Debug)]
pub struct Refusal {
    pub reason: Reason,
    pub place: usize,
}

/// A reason that has no place.
impl From<Reason> for Refusal {
    ghost from_gives = { λ reason r. r ≡ refusal reason 0 };

    fn from(reason: Reason) -> Refusal {
        reason.at(0)
    }
}

impl Refusal {
    /// The number that is reported.
    pub fn number(self) -> u8
        ensures { result ≡ number_of self.reason }
    {
        self.reason as u8
    }
}
