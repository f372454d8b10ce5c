// Programs run on piles.
ghost use Rattle.std.specs.Prelude.{◌≡◌, ◌++◌, take, drop, length, replicate, IfOk};
ghost use Rattle.layered.specs.Piles.{pile_model};
ghost use Rattle.exports.specs.Shapes.{over, chosen, kind_of, layers_of, pile_for};
ghost use Rattle.exports.specs.Running.{went, Ends, Goes};

use crate::came::OUT_OF_MEMORY;
use crate::failed::Failed;
use crate::reading::program_of;
use layered::chosen::Chosen;
use layered::leaves::into_cells;
use layered::pile::{Layers, Pile, into_leaf};
use machine::visit::{Choice, Visit};
use makes::built;
use makes::make::{LeafKind, MOST, Make};
use memory::Memory;
use program::program::Program;
use run::{Outcome, run};
use std::alloc::{AllocError, Global};

/// How many cells of a flat memory count.
const MOST_CELLS: usize = 65_536;

/// A pile in numbers: its make, the length of the list for the marks, and the layers, bottom first. A layer is 0 where
/// there is none, 1 for a full scan, and for a line 2 more than its exponent.
#[repr(C)]
#[derive(Clone, Copy)]
pub struct Shape {
    pub banked: bool,
    pub list: usize,
    pub first: u8,
    pub second: u8,
    pub third: u8,
    pub fourth: u8,
}

/// The steps and marks of a run, and the place of a fault plus 1, or the number and the place of a refusal. The number
/// is 0 where nothing is refused.
#[repr(C)]
#[derive(Clone, Copy)]
pub struct Went {
    pub number: u8,
    pub place: usize,
    pub steps: usize,
    pub marks: usize,
    pub fault: u32,
}

fn chosen(layer: u8) -> Option<Chosen>
    ensures { result ≡ chosen layer }
{
    match layer {
        0 => None,
        1 => Some(Chosen::Scan),
        _ => Some(Chosen::Line {
            exponent: u32::from(layer) - 2,
        }),
    }
}

fn kind(banked: bool) -> LeafKind
    ensures { result ≡ kind_of banked }
{
    if banked {
        LeafKind::Banked
    } else {
        LeafKind::Flat
    }
}

impl Shape {
    fn layers(self) -> Layers
        ensures { result ≡ layers_of self }
    {
        Layers {
            first: chosen(self.first),
            second: chosen(self.second),
            third: chosen(self.third),
            fourth: chosen(self.fourth),
        }
    }
}

// The pile over these cells. A list that is too long is made as long as it may be.
fn pile(heap: Global, cells: &[u32], shape: Shape) -> Result<Pile, AllocError>
    ensures { IfOk result (λ p. pile_model p ≡ pile_for shape cells.now) }
{
    let make = Make {
        kind: kind(shape.banked),
        size: cells.len().min(MOST_CELLS),
        list: shape.list.min(MOST),
        layers: shape.layers(),
    };
    built::build(heap, make, cells.to_vec(heap)?)
}

// Writes words in front, as far as there is room.
fn lay_over(words: &[u32], out: &mut [u32])
    ensures { out.new ≡ over words.now out.old }
{
    let count = words.len().min(out.len());
    out[..count].copy_from_slice(&words[..count]);
}

fn entry(words: &[u32]) -> [u32; 16]
    ensures { result ≡ over words.now (replicate 16 0) }
{
    let mut entry = [0; 16];
    lay_over(words, &mut entry);
    entry
}

// Runs so many times, and clears the marks after each.
fn run_often<M: Memory>(
    program: &Program,
    memory: &mut M,
    entry: &[u32; 16],
    visits: &mut [Visit],
    times: usize,
) {
    for _ in 0..times {
        let _ = run(program, memory, entry, visits);
        memory.clear();
    }
}

// As many visits as there is room for.
fn unvisited(heap: Global, room: usize) -> Result<Vec<Visit>, AllocError>
    ensures { IfOk result (λ visits. length visits.items ≡ room) }
{
    let visit = Visit {
        place: 0,
        choice: Choice::Onward,
    };
    vec![in heap; visit; room]
}

// Runs so many times on a pile that is dropped.
fn rehearse(
    heap: Global,
    program: &Program,
    entry: &[u32; 16],
    cells: &[u32],
    shape: Shape,
    room: usize,
    times: usize,
) -> Result<(), AllocError> {
    let mut visits = unvisited(heap, room)?;
    let mut pile = pile(heap, cells, shape)?;
    run_often(program, &mut pile, entry, &mut visits, times);
    Ok(())
}

fn go(
    heap: Global,
    image: &[u8],
    words: &[u32],
    cells: &mut [u32],
    shape: Shape,
    room: usize,
    again: usize,
) -> Result<Outcome, Failed>
    ensures { Goes image.now words.now shape room cells.old cells.new result }
{
    let program = program_of(heap, image)?;
    let entry = entry(words);
    rehearse(heap, &program, &entry, cells, shape, room, again)?;
    let mut visits = unvisited(heap, room)?;
    let mut pile = pile(heap, cells, shape)?;
    let outcome = run(&program, &mut pile, &entry, &mut visits)?;
    let left = into_cells(into_leaf(pile), heap)?;
    lay_over(&left, cells);
    Ok(outcome)
}

fn told(answer: Result<Outcome, Failed>) -> Went
    ensures { result ≡ went answer }
{
    match answer {
        Ok(outcome) => Went {
            number: 0,
            place: 0,
            steps: outcome.steps,
            marks: outcome.marks,
            fault: outcome.fault.map_or(0, |place| u32::from(place) + 1),
        },
        Err(Failed::Refused(refusal)) => Went {
            number: refusal.number(),
            place: refusal.place,
            steps: 0,
            marks: 0,
            fault: 0,
        },
        Err(Failed::OutOfMemory(_)) => Went {
            number: OUT_OF_MEMORY,
            place: 0,
            steps: 0,
            marks: 0,
            fault: 0,
        },
    }
}

/// Reads an image, and runs it on a pile over these cells, from these entry registers and with room for so many visits.
/// The cells are then what the run left, and a refusal changes none.
#[unsafe(no_mangle)]
pub extern "C" fn exports_run(
    heap: Global,
    image: &[u8],
    words: &[u32],
    cells: &mut [u32],
    shape: Shape,
    room: usize,
    again: usize,
) -> Went
    ensures { Ends result (Goes image.now words.now shape room cells.old cells.new) }
{
    told(go(heap, image, words, cells, shape, room, again))
}
