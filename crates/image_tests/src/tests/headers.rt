// Header values and zero bytes.
use crate::tests::expect;
use program::refusal::{Reason, Refusal};
use std::alloc::Global;
use std::test::Fail;

#[test]
fn an_empty_program_is_read(rt: HostRuntime) -> Result<(), Fail> {
    let heap = rt.alloc();
    expect(heap, &[], &[], Ok(0))?;
    expect(heap, &[(3, 1)], &[], Ok(0))?;
    expect(heap, &[(6, 0xff), (7, 0xff)], &[], Ok(0))?;
    expect(heap, &[(2, 1), (8, 4)], &[], Ok(0))
}

#[test]
fn edition_and_kind(rt: HostRuntime) -> Result<(), Fail> {
    let heap = rt.alloc();
    expect(heap, &[(0, 0)], &[], Err(Reason::BadHeader.at(0)))?;
    expect(heap, &[(0, 2)], &[], Err(Reason::BadHeader.at(0)))?;
    expect(heap, &[(1, 1)], &[], Err(Reason::BadHeader.at(0)))?;
    expect(heap, &[(3, 2)], &[], Err(Reason::BadHeader.at(0)))
}

#[test]
fn number_of_instructions(rt: HostRuntime) -> Result<(), Fail> {
    let heap = rt.alloc();
    expect(heap, &[(4, 200)], &[], Err(Reason::BadLength.at(0)))?;
    expect(heap, &[(4, 201)], &[], Err(Reason::BadHeader.at(0)))?;
    expect(heap, &[(3, 1), (4, 201)], &[], Err(Reason::BadLength.at(0)))?;
    expect(
        heap,
        &[(3, 1), (4, 0xb8), (5, 0x0b)],
        &[],
        Err(Reason::BadLength.at(0)),
    )?;
    expect(
        heap,
        &[(3, 1), (4, 0xb9), (5, 0x0b)],
        &[],
        Err(Reason::BadHeader.at(0)),
    )?;
    expect(heap, &[(4, 0), (5, 1)], &[], Err(Reason::BadHeader.at(0)))
}

#[test]
fn table_entries(rt: HostRuntime) -> Result<(), Fail> {
    let heap = rt.alloc();
    expect(heap, &[(2, 1), (8, 1)], &[], Ok(0))?;
    expect(heap, &[(2, 1), (8, 0)], &[], Err(Reason::BadHeader.at(0)))?;
    expect(heap, &[(2, 1), (9, 4)], &[], Ok(0))?;
    expect(
        heap,
        &[(2, 1), (8, 1), (9, 4)],
        &[],
        Err(Reason::BadHeader.at(0)),
    )?;
    expect(heap, &[(2, 1), (8, 1), (10, 1)], &[], Ok(0))?;
    expect(
        heap,
        &[(2, 1), (8, 1), (10, 2)],
        &[],
        Err(Reason::BadHeader.at(0)),
    )?;
    expect(
        heap,
        &[(2, 1), (8, 1), (11, 1)],
        &[],
        Err(Reason::BadHeader.at(0)),
    )?;
    expect(
        heap,
        &[(2, 1), (8, 1), (12, 1)],
        &[],
        Err(Reason::BadHeader.at(0)),
    )?;
    expect(heap, &[(10, 1)], &[], Err(Reason::BadHeader.at(0)))
}

// Tables of one cell each, eight of them, after a count of tables.
const ONE_CELL: [(usize, u8); 8] = [
    (8, 1),
    (12, 1),
    (16, 1),
    (20, 1),
    (24, 1),
    (28, 1),
    (32, 1),
    (36, 1),
];

// Four tables of 1,024 cells each.
const FULL: [(usize, u8); 4] = [(9, 4), (13, 4), (17, 4), (21, 4)];

fn with_tables(
    heap: Global,
    used: u8,
    tables: &[(usize, u8)],
    wanted: Result<usize, Refusal>,
) -> Result<(), Fail> {
    let mut set = Vec::new(heap);
    set.push((2, used))?;
    set.extend_from_slice(tables)?;
    expect(heap, &set, &[], wanted)
}

#[test]
fn number_of_tables_and_cells(rt: HostRuntime) -> Result<(), Fail> {
    let heap = rt.alloc();
    let bad = Err(Reason::BadHeader.at(0));
    with_tables(heap, 8, &ONE_CELL, Ok(0))?;
    with_tables(heap, 9, &ONE_CELL, bad)?;
    with_tables(heap, 7, &ONE_CELL, bad)?;
    with_tables(heap, 4, &FULL, Ok(0))?;
    with_tables(heap, 5, &[(9, 4), (13, 4), (17, 4), (21, 4), (24, 1)], bad)
}

#[test]
fn zero_bytes(rt: HostRuntime) -> Result<(), Fail> {
    let heap = rt.alloc();
    expect(heap, &[(39, 1)], &[], Err(Reason::BadHeader.at(0)))?;
    expect(heap, &[(40, 1)], &[], Err(Reason::BadHeader.at(0)))?;
    expect(heap, &[(63, 1)], &[], Err(Reason::BadHeader.at(0)))
}
