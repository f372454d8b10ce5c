// Pairing of brackets. A bad field anywhere goes before a bad bracket.
use crate::tests::expect;
use program::refusal::Reason;
use std::test::Fail;

const IF: [u8; 8] = [16, 0, 0, 0, 0, 0, 0, 0];

const ELSE: [u8; 8] = [17, 0, 0, 0, 0, 0, 0, 0];

const END: [u8; 8] = [18, 0, 0, 0, 0, 0, 0, 0];

const REPEAT: [u8; 8] = [19, 0, 0, 0, 1, 0, 0, 0];

const AGAIN: [u8; 8] = [20, 0, 0, 0, 0, 0, 0, 0];

const BAD: [u8; 8] = [21, 0, 0, 0, 0, 0, 0, 0];

#[test]
fn pairs(rt: HostRuntime) -> Result<(), Fail> {
    let heap = rt.alloc();
    expect(heap, &[], &[IF, END], Ok(2))?;
    expect(heap, &[], &[IF, ELSE, END], Ok(3))?;
    expect(heap, &[], &[REPEAT, IF, ELSE, END, AGAIN], Ok(5))?;
    expect(
        heap,
        &[],
        &[IF, REPEAT, AGAIN, ELSE, REPEAT, AGAIN, END],
        Ok(7),
    )
}

#[test]
fn what_closes_nothing_fitting(rt: HostRuntime) -> Result<(), Fail> {
    let heap = rt.alloc();
    expect(heap, &[], &[ELSE], Err(Reason::BadBracket.at(0)))?;
    expect(heap, &[], &[END], Err(Reason::BadBracket.at(0)))?;
    expect(heap, &[], &[AGAIN], Err(Reason::BadBracket.at(0)))?;
    expect(heap, &[], &[IF, AGAIN], Err(Reason::BadBracket.at(1)))?;
    expect(heap, &[], &[REPEAT, END], Err(Reason::BadBracket.at(1)))?;
    expect(heap, &[], &[REPEAT, ELSE], Err(Reason::BadBracket.at(1)))?;
    expect(
        heap,
        &[],
        &[IF, ELSE, ELSE, END],
        Err(Reason::BadBracket.at(2)),
    )?;
    expect(heap, &[], &[IF, ELSE, AGAIN], Err(Reason::BadBracket.at(2)))?;
    expect(heap, &[], &[END, BAD], Err(Reason::BadField.at(1)))
}

#[test]
fn what_is_left_open(rt: HostRuntime) -> Result<(), Fail> {
    let heap = rt.alloc();
    expect(heap, &[], &[IF], Err(Reason::BadBracket.at(0)))?;
    expect(heap, &[], &[IF, ELSE], Err(Reason::BadBracket.at(0)))?;
    expect(heap, &[], &[REPEAT, IF, END], Err(Reason::BadBracket.at(0)))?;
    expect(
        heap,
        &[],
        &[REPEAT, IF, ELSE],
        Err(Reason::BadBracket.at(1)),
    )
}

#[test]
fn eight_openings_and_no_ninth(rt: HostRuntime) -> Result<(), Fail> {
    let heap = rt.alloc();
    expect(
        heap,
        &[],
        &[
            IF, IF, IF, IF, REPEAT, IF, IF, IF, END, END, END, AGAIN, END, END, END, END,
        ],
        Ok(16),
    )?;
    expect(
        heap,
        &[],
        &[IF, IF, IF, IF, IF, IF, IF, IF, IF],
        Err(Reason::TooDeep.at(8)),
    )?;
    expect(
        heap,
        &[],
        &[IF, IF, IF, IF, IF, IF, IF, IF, REPEAT],
        Err(Reason::TooDeep.at(8)),
    )?;
    expect(
        heap,
        &[],
        &[IF, IF, IF, IF, IF, IF, IF, IF, ELSE],
        Err(Reason::BadBracket.at(7)),
    )?;
    expect(
        heap,
        &[],
        &[AGAIN, IF, IF, IF, IF, IF, IF, IF, IF, IF],
        Err(Reason::BadBracket.at(0)),
    )
}
