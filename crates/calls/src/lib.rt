// What is asked of a bench, and what it answers.
#![tactic(auto)]

/// The most visits that a go makes: no program with more steps is seated.
pub const MOST_VISITS: usize = 1_000_000;

/// A call, with its arguments.
#[derive(Drop)]
pub enum Call {
    /// Reads an image, converts it and makes it the program of the bench.
    Seat {
        image: Vec<u8>,
    },
    /// Writes a word to a table.
    Put {
        table: usize,
        index: usize,
        word: u32,
    },
    /// Sets an entry register.
    Arg {
        register: usize,
        word: u32,
    },
    /// Runs the program, with a visit list of so many entries.
    Go {
        room: usize,
    },
    /// Reads a cell of a public table.
    Look {
        table: usize,
        index: usize,
    },
    /// Reads a cell of any table.
    Open {
        table: usize,
        index: usize,
    },
    /// Asks for the ending of the last go that was accepted.
    Outcome,
    /// Empties the seen list.
    Clear,
}

/// Steps and marks: those of a go, or the most of a program.
#[derive(Clone, Copy, PartialEq, Eq, Debug)]
pub struct Tally {
    pub steps: usize,
    pub marks: usize,
}

/// What a go left in registers 0 to 15, and in register 24: 0, or one more than the place of the
/// fault that the source runs into.
#[derive(Clone, Copy, PartialEq, Eq, Debug)]
pub struct Ending {
    pub registers: [u32; 16],
    pub fault: u32,
}

/// What a call answers that is accepted.
#[derive(Clone, Copy, PartialEq, Eq, Debug)]
pub enum Answer {
    Done,
    Counts { tally: Tally },
    Word { word: u32 },
    Ended { ending: Ending },
}
