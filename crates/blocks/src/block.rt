// A block, from line to line.
ghost use Rattle.std.specs.Prelude.{ℕ, ◌+◌, IfOk};
ghost use Rattle.counted.specs.Counted.{Counted};

use crate::held::Held;
use crate::line_error::LineError;
use crate::lines::{Asked, Line};
use counted::{agrees, differs};
use layered::leaves::into_cells;
use layered::pile::into_leaf;
use makes::named;
use makes::named::Unnamed;
use makes::shown::{Seen, Words};
use std::alloc::{AllocError, Global};
use std::{fmt, mem};
use tally::report::Report;

/// A block whose end is still to come.
#[derive(Drop)]
pub struct Block<H> {
    id: String,
    state: State<H>,
}

#[derive(Drop)]
enum State<H> {
    /// Lines are held to what is answered.
    Open { held: H, seen: bool },
    /// The cells were looked at, and what was held is gone.
    Emptied { seen: bool },
    /// A line does not agree.
    Wrong { why: String },
}

/// What a block should have had.
#[derive(Clone, Copy)]
pub enum Missing {
    End,
    Seen,
    Cells,
}

impl fmt::Display for Missing {
    fn fmt<W: fmt::Write>(&self, f: &mut fmt::Formatter<W>) -> fmt::Result {
        f.write_str(match self {
            Missing::End => "it has no end",
            Missing::Seen => "no line has the marks seen",
            Missing::Cells => "no line has the cells",
        })
    }
}

impl<H: Held + Drop> Block<H> {
    pub(crate) fn begin(heap: Global, head: Line) -> Result<Block<H>, AllocError> {
        // Where no make stands behind the id, `held_of` says that it cannot be read.
        let (id, rest) = head.text.split_once(' ').unwrap_or((head.text, ""));
        let state = match held_of(heap, rest) {
            Ok(held) => State::Open { held, seen: false },
            Err(error) => State::Wrong {
                why: error.text(heap, head)?,
            },
        };
        let id = String::from_str(heap, id)?;
        Ok(Block { id, state })
    }

    /// What is missing where the block ends here.
    pub(crate) fn missing(&self) -> Option<Missing> {
        match self.state {
            State::Open { seen: true, .. } => Some(Missing::Cells),
            State::Open { seen: false, .. } | State::Emptied { seen: false } => {
                Some(Missing::Seen)
            }
            State::Emptied { seen: true } | State::Wrong { .. } => None,
        }
    }

    // What is held is long, so a line changes it where it is.
    /// Holds the block to a line, unless one before it was wrong.
    pub(crate) fn hold(&mut self, heap: Global, line: Line) -> Result<(), AllocError> {
        if let State::Wrong { .. } = self.state {
            return Ok(());
        }
        let (asked, expected) = line.parts();
        let why = match self.got(heap, asked) {
            Ok(got) => {
                if got.as_str() == expected {
                    return Ok(());
                }
                let number = line.number;
                let text = line.text;
                format!(in heap; "line {number}: expected {text}, got {got}")?
            }
            Err(error) => error.text(heap, line)?,
        };
        self.state = State::Wrong { why };
        Ok(())
    }

    // What is asked for.
    fn got(&mut self, heap: Global, asked: Asked) -> Result<String, LineError> {
        let State::Open { held, seen } = &mut self.state else {
            return Err(LineError::Unreadable);
        };
        match asked {
            Asked::Cells => self.cells(heap),
            Asked::Seen => {
                *seen = true;
                let memory = held.pile();
                Ok(Seen { memory }.to_string(heap)?)
            }
            Asked::Call(words) => held.answer(heap, words),
        }
    }

    // The cells, of what is then gone.
    fn cells(&mut self, heap: Global) -> Result<String, LineError> {
        let seen = matches!(self.state, State::Open { seen: true, .. });
        match mem::replace(&mut self.state, State::Emptied { seen }) {
            State::Open { held, .. } => {
                let cells = into_cells(into_leaf(held.into_pile()), heap)?;
                Ok(Words { words: &cells }.to_string(heap)?)
            }
            State::Emptied { .. } | State::Wrong { .. } => Err(LineError::Unreadable),
        }
    }
}

/// Counts a block, which agrees if no line was wrong and nothing is missing.
pub(crate) fn close<H: Held + Drop>(
    heap: Global,
    block: Block<H>,
    missing: Option<Missing>,
    report: &mut Report,
) -> Result<(), AllocError>
    ensures { (n : ℕ) → Counted n report.old → IfOk result (λ done. Counted (n + 1) report.new) }
{
    let Block { id, state } = block;
    let head = H::head();
    match (state, missing) {
        (State::Wrong { why }, _) => differs(report, format!(in heap; "{head}{id}: {why}")?),
        (_, Some(missing)) => differs(report, format!(in heap; "{head}{id}: {missing}")?),
        (_, None) => {
            agrees(report);
            Ok(())
        }
    }
}

// What is held over the pile of `MAKE cells=WORDS`.
fn held_of<H: Held>(heap: Global, text: &str) -> Result<H, LineError> {
    let (name, cells) = text.split_once(" cells=").ok_or(Unnamed::Unreadable)?;
    let pile = named::pile(heap, name.parse()?, cells)?;
    Ok(H::over(heap, pile)?)
}
