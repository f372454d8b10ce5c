// The way of each kind of case: what is run, and what it answers.
use crate::bytes::Bytes;
use crate::case::Case;
use crate::case_error::CaseError;
use crate::plans::Plan;
use crate::visits::Visits;
use converter::convert;
use counting::most_steps;
use image::{reader, writer};
use instructions::Instruction;
use layered::leaves::into_cells;
use layered::pile::{Pile, into_leaf};
use machine::visit::{Choice, Visit};
use makes::make::Make;
use makes::named::pile;
use makes::shown::{Seen, Words};
use makes::words::words;
use memory::Memory;
use plan::plan::plan;
use program::header::Kind;
use program::program::Program;
use std::alloc::{AllocError, Global};
use trials::answer::Answer;
use trials::room::Room;

/// A header of 64 bytes and 3,000 instructions of 8 bytes.
const LONGEST_IMAGE: usize = 24064;

impl Case<'_> {
    // What came of a case, in the words of the case files. A match shows all kinds at one sight; a table of
    // closures would be no shorter, and each way takes what it needs.
    pub(crate) fn came(self, heap: Global, room: &mut Room) -> Result<String, CaseError> {
        match self.kind {
            "read" => self.read(heap, room),
            "write" => self.write(heap, room),
            "plan" => self.plan_case(heap),
            "convert" => self.convert_case(heap),
            "run" => self.run_program(heap),
            _ => Err(CaseError::UnknownKind),
        }
    }

    fn read(self, heap: Global, room: &mut Room) -> Result<String, CaseError> {
        room.take_image(self.value("img")?)?;
        let answer = room.read(self.length("cap")?)?;
        match answer {
            Answer::Read { .. } => {
                let most = most_steps(&self.program_of(heap)?);
                Ok(format!(in heap; "{answer} most={most}")?)
            }
            _ => Ok(answer.to_string(heap)?),
        }
    }

    fn write(self, heap: Global, room: &mut Room) -> Result<String, CaseError> {
        room.take_image(self.value("img")?)?;
        let answer = room.write(self.length("cap")?)?;
        Ok(answer.to_string(heap)?)
    }

    // The case's image, `-` for no bytes.
    fn image(self, heap: Global) -> Result<Vec<u8>, CaseError> {
        match self.value("img")? {
            "-" => Ok(Vec::new(heap)),
            text => Ok(hexadecimal::decode(heap, text.as_bytes())?),
        }
    }

    // The program of the case's image, unless reading refuses it.
    fn program_of(self, heap: Global) -> Result<Program, CaseError> {
        let image = self.image(heap)?;
        let list = vec![in heap; Instruction::Again; usize::from(Kind::Converted.longest())]?;
        Ok(reader::read(&image, list)?)
    }

    fn plan_case(self, heap: Global) -> Result<String, CaseError> {
        let program = self.program_of(heap)?;
        let mut list = vec![in heap; 0xa5a5u16; self.length("cap")?]?;
        plan(&program, &mut list)?;
        list.truncate(usize::from(program.header().count).saturating_add(1));
        let plan = Plan { sets: &list };
        Ok(format!(in heap; "ok {plan}")?)
    }

    // Whether the memory hides.
    fn hides(self) -> Result<bool, CaseError> {
        match self.value("hides")? {
            "0" => Ok(false),
            "1" => Ok(true),
            _ => Err(CaseError::Unreadable),
        }
    }

    fn convert_case(self, heap: Global) -> Result<String, CaseError> {
        let program = self.program_of(heap)?;
        let list = vec![in heap; Instruction::Again; self.length("cap")?]?;
        let straight = convert(&program, self.hides()?, list)?;
        let mut image = vec![in heap; 0u8; LONGEST_IMAGE]?;
        let length = writer::write(&straight, &mut image)?;
        image.truncate(length);
        let bytes = Bytes { bytes: &image };
        Ok(format!(in heap; "ok {bytes}")?)
    }

    // The memory that the case names, with its cells.
    fn pile_of(self, heap: Global) -> Result<Pile, CaseError> {
        let make: Make = self.value("mem")?.parse()?;
        Ok(pile(heap, make, self.value("cells")?)?)
    }

    // The entry registers that the case gives.
    fn entry_of(self, heap: Global) -> Result<[u32; 16], CaseError> {
        let given = words(heap, self.value("regs")?)?;
        let mut entry = [0; 16];
        for (register, word) in entry.iter_mut().zip(&given) {
            *register = *word;
        }
        Ok(entry)
    }

    fn run_program(self, heap: Global) -> Result<String, CaseError> {
        let program = self.program_of(heap)?;
        let mut memory = self.pile_of(heap)?;
        let entry = self.entry_of(heap)?;
        let unvisited = Visit {
            place: 0,
            choice: Choice::Onward,
        };
        let mut visits = vec![in heap; unvisited; self.length("vcap")?]?;
        let outcome = run::run(&program, &mut memory, &entry, &mut visits)?;
        visits.truncate(outcome.steps);
        Ok(ran(heap, outcome, &visits, memory)?)
    }
}

fn ran(
    heap: Global,
    outcome: run::Outcome,
    visits: &[Visit],
    memory: Pile,
) -> Result<String, AllocError> {
    let seen = Seen { memory: &memory }.to_string(heap)?;
    let cells = into_cells(into_leaf(memory), heap)?;
    let cells = Words { words: &cells };
    let words = outcome.registers;
    let registers = Words { words: &words };
    let visits = Visits { visits };
    let steps = outcome.steps;
    let marks = outcome.marks;
    let fault = match outcome.fault {
        Some(place) => format!(in heap; "{place}")?,
        None => format!(in heap; "-")?,
    };
    format!(in heap;
        "ok regs={registers} steps={steps} marks={marks} fault={fault} visits={visits} seen={seen} cells={cells}"
    )
}
