// What some piles show and refuse.
use crate::built::{banked_line_scan, flat_scan_line};
use flat::{Flat, into_parts};
use full_scan::FullScan;
use layer::Over;
use leaf::Leaf;
use memory::window::Window;
use memory::{Mark, Memory};
use program::refusal::Reason;
use std::test::Fail;

// Whether these are the marks seen.
fn saw<M: Memory>(memory: &M, marks: &[Mark]) -> bool {
    memory.marks() == marks.len()
        && (0..=marks.len()).all(|j| memory.mark(j) == marks.get(j).copied())
}

fn table(first: usize, length: usize) -> Window {
    Window { first, length }
}

// The word that a read answers, or why it is refused.
fn read<M: Memory>(memory: &mut M, table: Window, off: usize) -> Result<u32, Reason> {
    memory.read(table, off).map_err(|why| why.reason)
}

fn scans<M: Memory>(memory: &mut M) -> bool {
    read(memory, table(0, 4), 3) == Ok(8)
        && memory.write(table(0, 4), 3, 9).is_ok()
        && saw(memory, &[0, 1, 2, 3, 0, 0, 1, 1, 2, 2, 3, 3])
        && read(memory, table(0, 1), 0) == Err(Reason::NoRoomForMarks)
}

#[test]
fn a_scan_shows_every_offset(rt: HostRuntime) -> Result<(), Fail> {
    let cells = [5, 6, 7, 8].to_vec(rt.alloc())?;
    let list = [0; 12].to_vec(rt.alloc())?;
    let mut memory = Over::new(FullScan, Leaf::new(Flat { cells }, list));
    assert!(rt; scans(&mut memory));
    let (cells, _list) = into_parts(memory.into_below());
    assert!(rt; cells.as_slice() == [5, 6, 7, 9].as_slice());
    Ok(())
}

fn divides<M: Memory>(memory: &mut M) -> bool {
    let seen = read(memory, table(0, 4), 2) == Ok(7) && saw(memory, &[0, 0, 1, 1]);
    let outside = read(memory, table(0, 4), 4) == Err(Reason::OutsideTable)
        && read(memory, table(0, 0), 0) == Err(Reason::OutsideTable)
        && read(memory, table(usize::MAX, 4), 0) == Err(Reason::OutsideTable);
    memory.clear();
    seen && outside && memory.free() == 9
}

#[test]
fn a_line_on_top_divides(rt: HostRuntime) -> Result<(), Fail> {
    let cells = [5, 6, 7, 8].to_vec(rt.alloc())?;
    let list = [0; 9].to_vec(rt.alloc())?;
    let mut memory = flat_scan_line(cells, list, 1);
    assert!(rt; divides(&mut memory));
    Ok(())
}

fn hides<M: Memory>(memory: &mut M) -> bool {
    memory.write(table(6, 2), 1, 77).is_ok()
        && read(memory, table(6, 2), 1) == Ok(77)
        && read(memory, table(6, 2), 0) == Ok(0)
        && saw(memory, &[1, 1, 1, 1, 1, 1, 1, 1])
        && memory.hides()
}

#[test]
fn a_scan_over_rows_hides(rt: HostRuntime) -> Result<(), Fail> {
    let list = [0; 40].to_vec(rt.alloc())?;
    let mut memory = banked_line_scan(list, 0);
    assert!(rt; hides(&mut memory));
    Ok(())
}
