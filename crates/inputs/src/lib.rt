// What a run starts from: entry registers, and the words of the tables.
#![tactic(auto)]

ghost use Rattle.std.specs.Prelude.{◌≡◌, replicate, IfOk, OnErr, Some, is_ok, if◌then◌else◌, vec_len, nat_lt, slice_set, codes};
ghost use Rattle.program.specs.Headers.{first_cell};

use program::program::Program;
use std::alloc::{AllocError, Global};
use std::error::Error;
use std::fmt;
use std::num::ParseIntError;

/// A text that names no register and no word of a table, or gives no word.
#[derive(Clone, Copy, Debug, PartialEq, Eq)]
pub struct NotAnInput;

impl fmt::Display for NotAnInput {
    ghost output = { λ _. Some (codes "not an input") };

    fn fmt<W: fmt::Write>(&self, f: &mut fmt::Formatter<W>) -> fmt::Result {
        f.write_str("not an input")
    }
}

impl Error for NotAnInput {}

impl From<ParseIntError> for NotAnInput {
    fn from(_number: ParseIntError) -> NotAnInput {
        NotAnInput
    }
}

/// Entry registers and cells, all 0 at first.
#[derive(Drop)]
pub struct Inputs {
    pub entry: [u32; 16],
    pub cells: Vec<u32>,
}

impl Inputs {
    /// With a cell for each of the program's tables' words.
    pub fn new(heap: Global, program: &Program) -> Result<Inputs, AllocError>
        ensures { IfOk result (λ i. (i.entry ≡ replicate 16 0) × (i.cells.items ≡ replicate (first_cell program.now.header.tables 8) 0)) }
    {
        let cells = vec![in heap; 0u32; program.header().cells() as usize]?;
        Ok(Inputs {
            entry: [0; 16],
            cells,
        })
    }

    // Registers and cells are set by index: after a write through get_mut a proof knows no element.
    /// Sets an entry register, where there is one of that number.
    pub fn set_register(&mut self, register: usize, word: u32) -> Result<(), NotAnInput>
        ensures answer { is_ok result ≡ nat_lt register 16 }
        ensures entry { self.new.entry ≡ (if is_ok result then slice_set self.old.entry register word else self.old.entry) }
        ensures cells { self.new.cells ≡ self.old.cells }
    {
        if register >= 16 {
            return Err(NotAnInput);
        }
        self.entry[register] = word;
        Ok(())
    }

    /// Sets a cell, where there is one of that number.
    pub fn set_cell(&mut self, cell: usize, word: u32) -> Result<(), NotAnInput>
        ensures answer { is_ok result ≡ nat_lt cell (vec_len self.old.cells) }
        ensures entry { self.new.entry ≡ self.old.entry }
        ensures cells { self.new.cells.items ≡ (if is_ok result then slice_set self.old.cells.items cell word else self.old.cells.items) }
    {
        if cell >= self.cells.len() {
            return Err(NotAnInput);
        }
        self.cells[cell] = word;
        Ok(())
    }

    /// Takes what a text says, `r1=5` for an entry register or `t0.3=99` for a word of a table. An
    /// error changes nothing.
    pub fn take(&mut self, program: &Program, text: &str) -> Result<(), NotAnInput>
        ensures entry { OnErr result (self.new.entry ≡ self.old.entry) }
        ensures cells { OnErr result (self.new.cells.items ≡ self.old.cells.items) }
    {
        let (name, value) = text.split_once('=').ok_or(NotAnInput)?;
        let word = value.parse::<u32>()?;
        if let Some(register) = register_of(name) {
            return self.set_register(register, word);
        }
        let cell = cell_of(program, name).ok_or(NotAnInput)?;
        self.set_cell(cell, word)
    }
}

// The register that `r1` names.
fn register_of(name: &str) -> Option<usize> {
    name.strip_prefix('r')?.parse::<usize>().ok()
}

// The cell that `t0.3` names, if the program has it.
fn cell_of(program: &Program, name: &str) -> Option<usize> {
    let (table, index) = name.strip_prefix('t')?.split_once('.')?;
    let table = table.parse::<usize>().ok()?;
    let index = index.parse::<usize>().ok()?;
    let length = usize::from(program.header().tables.get(table)?.length);
    if index >= length {
        return None;
    }
    (program.header().first_cell(table) as usize).checked_add(index)
}
