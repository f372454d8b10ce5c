// The cases, converted and run: table 0 is secret, and its cells are 5, 6, 7 and 8.
use crate::routine::Routine;
use converter::convert;
use flat::Flat;
use full_scan::FullScan;
use instructions::Instruction;
use layer::Over;
use leaf::Leaf;
use machine::visit::{Choice, Visit};
use memory::{Mark, Memory};
use program::refusal::{Reason, Refusal};
use run::{Outcome, run};
use std::alloc::{AllocError, Global};
use std::test::Fail;

/// A routine, the set of its secret entry registers, and the word of register 1.
#[derive(Clone, Copy)]
struct Case {
    routine: Routine,
    secret: u16,
    word: u32,
}

/// What a result's run left in register 0 and in register 24, and its steps.
#[derive(Clone, Copy, PartialEq, Eq, Debug)]
struct Ran {
    first: u32,
    noted: u32,
    steps: usize,
}

impl From<Outcome> for Ran {
    fn from(outcome: Outcome) -> Ran {
        Ran {
            first: outcome.registers[0],
            noted: outcome.registers[24],
            steps: outcome.steps,
        }
    }
}

/// Two results, one in the other, since a refusal is an answer here, and `?` passes on only the lack of
/// memory.
fn answer<M: Memory>(
    heap: Global,
    case: Case,
    memory: &mut M,
) -> Result<Result<Ran, Refusal>, AllocError> {
    let source = case.routine.source(true, case.secret, heap)?;
    let list = vec![in heap; Instruction::End; 18]?;
    let mut visits = vec![in heap; Visit {
        place: 0,
        choice: Choice::Onward,
    }; 18]?;
    let mut entry = [0; 16];
    entry[1] = case.word;
    Ok(match convert(&source, memory.hides(), list) {
        Ok(result) => match run(&result, memory, &entry, visits.as_mut_slice()) {
            Ok(outcome) => Ok(outcome.into()),
            Err(refusal) => Err(refusal),
        },
        Err(back) => Err(back.refusal),
    })
}

// Whether these are the marks seen.
fn saw<M: Memory>(memory: &M, marks: &[Mark]) -> bool {
    memory.marks() == marks.len()
        && (0..=marks.len()).all(|j| memory.mark(j) == marks.get(j).copied())
}

/// On this memory the case answers so, and shows these marks.
fn expect<M: Memory>(
    heap: Global,
    case: Case,
    memory: &mut M,
    wanted: Result<Ran, Refusal>,
    marks: &[Mark],
) -> Result<(), Fail> {
    let answered = answer(heap, case, memory)?;
    if answered == wanted && saw(memory, marks) {
        Ok(())
    } else {
        Err(Fail::new(format_args!("{answered:?} in place of {wanted:?}, or other marks")))
    }
}

fn four_cells(heap: Global) -> Result<Leaf<Flat>, AllocError> {
    let cells = [5, 6, 7, 8].to_vec(heap)?;
    Ok(Leaf::new(Flat { cells }, [0; 12].to_vec(heap)?))
}

fn on_flat(
    heap: Global,
    case: Case,
    wanted: Result<Ran, Refusal>,
    marks: &[Mark],
) -> Result<(), Fail> {
    expect(heap, case, &mut four_cells(heap)?, wanted, marks)
}

fn on_scan(
    heap: Global,
    case: Case,
    wanted: Result<Ran, Refusal>,
    marks: &[Mark],
) -> Result<(), Fail> {
    expect(
        heap,
        case,
        &mut Over::new(FullScan, four_cells(heap)?),
        wanted,
        marks,
    )
}

const fn tried(routine: Routine, secret: u16, word: u32) -> Case {
    Case {
        routine,
        secret,
        word,
    }
}

const fn left(first: u32, noted: u32, steps: usize) -> Result<Ran, Refusal> {
    Ok(Ran {
        first,
        noted,
        steps,
    })
}

#[test]
fn ifs(rt: HostRuntime) -> Result<(), Fail> {
    let heap = rt.alloc();
    on_flat(heap, tried(Routine::Choose, 2, 5), left(7, 0, 9), &[])?;
    on_flat(heap, tried(Routine::Choose, 2, 0), left(9, 0, 9), &[])?;
    on_flat(heap, tried(Routine::Choose, 0, 5), left(7, 0, 4), &[])?;
    on_flat(heap, tried(Routine::Choose, 0, 0), left(9, 0, 3), &[])?;
    on_flat(
        heap,
        tried(Routine::ArmWithConst, 2, 0),
        Err(Reason::SecretIndex.at(3)),
        &[],
    )?;
    on_flat(
        heap,
        tried(Routine::ArmWithoutConst, 2, 0),
        left(5, 0, 18),
        &[0],
    )
}

#[test]
fn accesses(rt: HostRuntime) -> Result<(), Fail> {
    let heap = rt.alloc();
    on_flat(heap, tried(Routine::Lookup, 0, 3), left(8, 0, 11), &[3])?;
    on_flat(heap, tried(Routine::Lookup, 0, 4), left(5, 1, 11), &[0])?;
    on_flat(
        heap,
        tried(Routine::Lookup, 2, 3),
        Err(Reason::SecretIndex.at(0)),
        &[],
    )?;
    on_scan(
        heap,
        tried(Routine::Lookup, 2, 2),
        left(7, 0, 11),
        &[0, 1, 2, 3],
    )?;
    on_scan(
        heap,
        tried(Routine::Update, 2, 2),
        left(0, 0, 13),
        &[0, 1, 2, 3, 0, 0, 1, 1, 2, 2, 3, 3],
    )
}

#[test]
fn repeats(rt: HostRuntime) -> Result<(), Fail> {
    let heap = rt.alloc();
    on_flat(
        heap,
        tried(Routine::Walk, 8, 2),
        Err(Reason::SecretIndex.at(1)),
        &[],
    )?;
    on_flat(
        heap,
        tried(Routine::Rounds, 0, 2),
        Err(Reason::NoRoomForVisits.into()),
        &[],
    )?;
    on_flat(
        heap,
        tried(Routine::TooManyRounds, 0, 2),
        Err(Reason::TooManySteps.into()),
        &[],
    )
}
