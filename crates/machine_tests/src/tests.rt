// Small programs, run on a flat memory.
use flat::Flat;
use image::reader::read;
use instructions::Instruction;
use leaf::Leaf;
use machine::visit::{Choice, Visit};
use program::refusal::Reason;
use run::{Outcome, run};
use std::alloc::{AllocError, Global};
use std::test::Fail;

/// Header bytes that are set in an image of kind 0 without tables, instructions as bytes, register 1
/// at the entry, the room for cells, marks and visits, and what is answered.
#[derive(Clone, Copy)]
struct Case {
    set: &'static [(usize, u8)],
    body: &'static [[u8; 8]],
    word: u32,
    cells: usize,
    marks: usize,
    visits: usize,
    answer: Answer,
}

/// What a run came to, or why it is refused.
type Answer = Result<Ran, Reason>;

/// Steps and marks of a run, register 0 after it, and where a fault was.
#[derive(Clone, Copy, PartialEq, Eq, Debug)]
struct Ran {
    steps: usize,
    marks: usize,
    first: u32,
    fault: Option<u16>,
}

impl From<Outcome> for Ran {
    fn from(outcome: Outcome) -> Ran {
        Ran {
            steps: outcome.steps,
            marks: outcome.marks,
            first: outcome.registers[0],
            fault: outcome.fault,
        }
    }
}

// The tests of images have these two functions again: tests of one crate cannot call those of another.
fn image_of(heap: Global, case: &Case) -> Result<Vec<u8>, AllocError> {
    let mut image = vec![in heap; 0u8; 64]?;
    let count = (case.body.len() & 0xff) as u8;
    put(&mut image, 0, 1);
    put(&mut image, 4, count);
    for (at, value) in case.set {
        put(&mut image, *at, *value);
    }
    for row in case.body {
        image.extend_from_slice(row)?;
    }
    Ok(image)
}

fn put(image: &mut Vec<u8>, at: usize, value: u8) {
    if let Some(byte) = image.get_mut(at) {
        *byte = value;
    }
}

/// What the run answers, and the visit list then: entries that were not filled are place 9,999. A refusal is an
/// answer here, and `?` passes on only the lack of memory.
fn answer(heap: Global, case: &Case) -> Result<(Answer, Vec<Visit>), AllocError> {
    let image = image_of(heap, case)?;
    let list = vec![in heap; Instruction::End; 16]?;
    let cells = vec![in heap; 77u32; case.cells]?;
    let seen = vec![in heap; 0u32; case.marks]?;
    let mut visits = vec![in heap; Visit {
        place: 9999,
        choice: Choice::Fault,
    }; case.visits]?;
    let mut memory = Leaf::new(Flat { cells }, seen);
    let mut entry = [0; 16];
    entry[1] = case.word;
    let answer = match read(&image, list) {
        Ok(program) => match run(&program, &mut memory, &entry, visits.as_mut_slice()) {
            Ok(outcome) => Ok(outcome.into()),
            Err(refusal) => Err(refusal.reason),
        },
        Err(back) => Err(back.refusal.reason),
    };
    Ok((answer, visits))
}

const AGAIN: [u8; 8] = [20, 0, 0, 0, 0, 0, 0, 0];

const REPEAT_999: [u8; 8] = [19, 0, 1, 0, 231, 3, 0, 0];

const REPEAT_1000: [u8; 8] = [19, 0, 1, 0, 232, 3, 0, 0];

// A load from a table of four cells, past its end.
const PAST: Case = Case {
    set: &[(2, 1), (8, 4)],
    body: &[[14, 0, 1, 0, 0, 0, 0, 0]],
    word: 4,
    cells: 4,
    marks: 1,
    visits: 1,
    answer: Ok(Ran {
        steps: 1,
        marks: 0,
        first: 0,
        fault: Some(0),
    }),
};

const CASES: [Case; 3] = [
    PAST,
    // too many steps, before anything that the memory lacks
    Case {
        body: &[REPEAT_999, REPEAT_1000, AGAIN, AGAIN],
        cells: 3,
        answer: Err(Reason::TooManySteps),
        ..PAST
    },
    // a converted program with brackets, and registers past 15
    Case {
        set: &[(3, 1)],
        body: &[
            [1, 31, 1, 0, 0, 0, 0, 0],
            [0, 30, 0, 0, 1, 0, 0, 0],
            [19, 0, 30, 0, 2, 0, 0, 0],
            [2, 31, 31, 30, 0, 0, 0, 0],
            [0, 30, 0, 0, 2, 0, 0, 0],
            AGAIN,
            [1, 0, 31, 0, 0, 0, 0, 0],
        ],
        word: 40,
        cells: 0,
        marks: 0,
        visits: 10,
        answer: Ok(Ran {
            steps: 7,
            marks: 0,
            first: 41,
            fault: None,
        }),
    },
];

#[test]
fn small_runs(rt: HostRuntime) -> Result<(), Fail> {
    for case in &CASES {
        let (found, _visits) = answer(rt.alloc(), case)?;
        assert_eq!(rt; found, case.answer);
    }
    Ok(())
}

const LONGEST: Case = Case {
    set: &[],
    body: &[REPEAT_999, REPEAT_999, AGAIN, AGAIN],
    word: 5000,
    cells: 0,
    marks: 0,
    visits: 1_000_001,
    answer: Ok(Ran {
        steps: 1_000_000,
        marks: 0,
        first: 0,
        fault: None,
    }),
};

#[test]
fn the_longest_run(rt: HostRuntime) -> Result<(), Fail> {
    let (found, visits) = answer(rt.alloc(), &LONGEST)?;
    assert_eq!(rt; found, LONGEST.answer);
    let last = Visit {
        place: 3,
        choice: Choice::Past,
    };
    assert_eq!(rt; visits.get(999_999).copied(), Some(last));
    Ok(())
}
