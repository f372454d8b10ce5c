// Ops and their fields.
use crate::tests::expect;
use program::refusal::Reason;
use std::alloc::Global;
use std::test::Fail;

// The header bytes that make one public table of four cells.
const ONE_TABLE: [(usize, u8); 2] = [(2, 1), (8, 4)];

// Each of these instructions is refused where it stands alone.
fn refused(heap: Global, set: &[(usize, u8)], instructions: &[[u8; 8]]) -> Result<(), Fail> {
    for instruction in instructions {
        expect(heap, set, &[*instruction], Err(Reason::BadField.at(0)))?;
    }
    Ok(())
}

#[test]
fn ops(rt: HostRuntime) -> Result<(), Fail> {
    let heap = rt.alloc();
    expect(heap, &[], &[[0, 15, 0, 0, 255, 255, 255, 255]], Ok(1))?;
    refused(
        heap,
        &[],
        &[[21, 0, 0, 0, 0, 0, 0, 0], [255, 0, 0, 0, 0, 0, 0, 0]],
    )?;
    expect(
        heap,
        &[],
        &[[1, 0, 0, 0, 0, 0, 0, 0], [21, 0, 0, 0, 0, 0, 0, 0]],
        Err(Reason::BadField.at(1)),
    )
}

#[test]
fn registers(rt: HostRuntime) -> Result<(), Fail> {
    let heap = rt.alloc();
    expect(heap, &[], &[[2, 15, 15, 15, 0, 0, 0, 0]], Ok(1))?;
    refused(
        heap,
        &[],
        &[
            [2, 16, 15, 15, 0, 0, 0, 0],
            [2, 15, 16, 15, 0, 0, 0, 0],
            [2, 15, 15, 16, 0, 0, 0, 0],
        ],
    )?;
    expect(heap, &[(3, 1)], &[[13, 31, 31, 31, 0, 0, 0, 0]], Ok(1))?;
    refused(heap, &[(3, 1)], &[[13, 32, 31, 31, 0, 0, 0, 0]])
}

#[test]
fn tables(rt: HostRuntime) -> Result<(), Fail> {
    let heap = rt.alloc();
    refused(heap, &[], &[[14, 0, 0, 0, 0, 0, 0, 0]])?;
    expect(heap, &ONE_TABLE, &[[14, 0, 0, 0, 0, 0, 0, 0]], Ok(1))?;
    expect(heap, &ONE_TABLE, &[[15, 15, 15, 0, 0, 0, 0, 0]], Ok(1))?;
    refused(
        heap,
        &ONE_TABLE,
        &[[14, 0, 0, 1, 0, 0, 0, 0], [15, 0, 0, 1, 0, 0, 0, 0]],
    )
}

const AGAIN: [u8; 8] = [20, 0, 0, 0, 0, 0, 0, 0];

#[test]
fn shifts_and_rounds(rt: HostRuntime) -> Result<(), Fail> {
    let heap = rt.alloc();
    expect(heap, &[], &[[8, 0, 0, 0, 31, 0, 0, 0]], Ok(1))?;
    expect(heap, &[], &[[19, 0, 1, 0, 0, 4, 0, 0], AGAIN], Ok(2))?;
    expect(heap, &[], &[[19, 0, 1, 0, 1, 0, 0, 0], AGAIN], Ok(2))?;
    refused(
        heap,
        &[],
        &[
            [10, 0, 0, 0, 32, 0, 0, 0],
            [9, 0, 0, 0, 0, 1, 0, 0],
            [19, 0, 1, 0, 0, 0, 0, 0],
            [19, 0, 1, 0, 1, 4, 0, 0],
        ],
    )
}

#[test]
fn fields_that_are_not_used(rt: HostRuntime) -> Result<(), Fail> {
    refused(
        rt.alloc(),
        &[],
        &[
            [0, 0, 1, 0, 0, 0, 0, 0],
            [1, 0, 0, 1, 0, 0, 0, 0],
            [7, 0, 0, 0, 1, 0, 0, 0],
            [8, 0, 0, 1, 1, 0, 0, 0],
            [16, 1, 0, 0, 0, 0, 0, 0],
            [17, 0, 0, 0, 0, 0, 0, 1],
            [19, 0, 0, 1, 1, 0, 0, 0],
        ],
    )
}
