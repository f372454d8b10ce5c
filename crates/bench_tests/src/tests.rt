// Small programs, seated and run.
use calls::{Answer, Call, Ending, Tally};
use flat::Flat;
use leaf::Leaf;
use player::play::{Played, play};
use program::refusal::{Reason, Refusal};
use script::order::Order;
use script::script::Script;
use script::unread::{Stop, Unread};
use std::alloc::{AllocError, Global};
use std::test::Fail;

// A source with these instructions, and what else is set in its header.
fn image_of(heap: Global, set: &[(usize, u8)], body: &[[u8; 8]]) -> Result<Vec<u8>, AllocError> {
    let mut image = vec![in heap; 0u8; 64]?;
    let count = (body.len() & 0xff) as u8;
    put(&mut image, 0, 1);
    put(&mut image, 4, count);
    for (at, value) in set {
        put(&mut image, *at, *value);
    }
    for row in body {
        image.extend_from_slice(row)?;
    }
    Ok(image)
}

fn put(image: &mut Vec<u8>, at: usize, value: u8) {
    if let Some(byte) = image.get_mut(at) {
        *byte = value;
    }
}

// The calls of a text, where every file holds this image.
fn calls_of(heap: Global, script: Script<'_>, image: &Vec<u8>) -> Result<Vec<Call>, AllocError> {
    let mut calls = Vec::new(heap);
    for line in script.lines {
        calls.push(match line.order {
            Order::Seat { file: _ } => Call::Seat {
                image: image.clone()?,
            },
            Order::Call { call } => call,
        })?;
    }
    Ok(calls)
}

// Plays a text on a memory of four cells, which sees eight marks.
fn played(heap: Global, image: &Vec<u8>, text: &str) -> Result<Played<Leaf<Flat>>, AllocError> {
    let script = Script::read(heap, text)?;
    let calls = calls_of(heap, script, image)?;
    let cells = vec![in heap; 77u32; 4]?;
    let seen = vec![in heap; 0u32; 8]?;
    play(heap, Leaf::new(Flat { cells }, seen), &calls)
}

fn counts(steps: usize, marks: usize) -> Result<Answer, Refusal> {
    Ok(Answer::Counts {
        tally: Tally { steps, marks },
    })
}

fn ended(first: u32, second: u32, fault: u32) -> Result<Answer, Refusal> {
    let mut registers = [0; 16];
    registers[0] = first;
    registers[1] = second;
    Ok(Answer::Ended {
        ending: Ending { registers, fault },
    })
}

// A load from a table of four cells by register 1: a guard of ten instructions, and the load.
#[test]
fn a_load(rt: HostRuntime) -> Result<(), Fail> {
    let heap = rt.alloc();
    let image = image_of(heap, &[(2, 1), (8, 4)], &[[14, 0, 1, 0, 0, 0, 0, 0]])?;
    let text =
        "# a load\nseat load.img\nput 0 2 99\narg 1 2\n\n  go\noutcome\nlook 0 2\narg 1 4\ngo 11\noutcome\ngo 10\n";
    let Played { log, memory: _ } = played(heap, &image, text)?;
    let done = Ok(Answer::Done);
    let expected = [
        (counts(11, 1), 0, 0),
        (done, 0, 1),
        (done, 0, 1),
        (counts(11, 1), 11, 2),
        (ended(99, 2, 0), 0, 2),
        (Ok(Answer::Word { word: 99 }), 0, 3),
        (done, 0, 3),
        (counts(11, 1), 11, 4),
        (ended(77, 4, 1), 0, 4),
        (Err(Reason::NoRoomForVisits.at(0)), 0, 4),
    ];
    assert_eq!(rt; log.len(), expected.len());
    for (entry, (answer, visits, marks)) in log.iter().zip(&expected) {
        assert_eq!(rt; entry.answer, *answer);
        assert_eq!(rt; entry.visits.len(), *visits);
        assert_eq!(rt; entry.marks, *marks);
    }
    Ok(())
}

// Register 1 is secret, and says what register 0 gets: both runs make the same nine visits.
#[test]
fn a_secret_if(rt: HostRuntime) -> Result<(), Fail> {
    let heap = rt.alloc();
    let body = [
        [16, 0, 1, 0, 0, 0, 0, 0],
        [0, 0, 0, 0, 7, 0, 0, 0],
        [17, 0, 0, 0, 0, 0, 0, 0],
        [0, 0, 0, 0, 9, 0, 0, 0],
        [18, 0, 0, 0, 0, 0, 0, 0],
    ];
    let image = image_of(heap, &[(6, 2)], &body)?;
    let text = "seat if.img\narg 1 5\ngo\noutcome\narg 1 0\ngo\noutcome";
    let Played { log, memory: _ } = played(heap, &image, text)?;
    let done = Ok(Answer::Done);
    let expected = [
        counts(9, 0),
        done,
        counts(9, 0),
        ended(7, 5, 0),
        done,
        counts(9, 0),
        ended(9, 0, 0),
    ];
    assert_eq!(rt; log.len(), expected.len());
    for (entry, answer) in log.iter().zip(&expected) {
        assert_eq!(rt; entry.answer, *answer);
    }
    let first = log.get(2).map(|entry| entry.visits.as_slice());
    let second = log.get(5).map(|entry| entry.visits.as_slice());
    assert!(rt; first == second);
    Ok(())
}

#[test]
fn a_text_stops_at_a_line(rt: HostRuntime) -> Result<(), Fail> {
    let heap = rt.alloc();
    let script = Script::read(heap, "clear\n\nput 0 1\ngo")?;
    assert_eq!(rt; script.lines.len(), 1);
    let stop = Stop {
        line: 3,
        why: Unread::NotItsArguments,
    };
    assert_eq!(rt; script.stop, Some(stop));
    let shown = stop.to_string(heap)?;
    assert_eq!(rt; shown.as_str(), "line 3: not what this call takes");
    Ok(())
}
