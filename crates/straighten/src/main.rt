// Reads an image from standard input and shows the program in it, stage by stage: its listing with
// what is secret where, what it counts at the most, what it becomes as straight code, and, if inputs
// are given, a run. If it is asked for, the converted image is written.
#![tactic(auto)]

mod running;
mod shown;
mod straightened;

use anyhow::bail;
use arguments::arguments::Arguments;
use image::reader;
use instructions::Instruction;
use program::header::Kind;
use program::program::Program;
use program::refusal::Refusal;
use report::bounds::bounds_of;
use std::env;
use std::io::Read;

/// A header, and the most instructions that a program has.
const LONGEST_IMAGE: u64 = 64 + 8 * 3000;

fn arguments(rt: &HostRuntime) -> anyhow::Result<Arguments> {
    let mut arguments = Arguments::new(rt.alloc());
    for word in env::args(rt)?.skip(1) {
        arguments.take(word)?;
    }
    arguments.check()?;
    Ok(arguments)
}

// One byte more than the longest image is enough to see that an input is too long.
fn input(rt: &HostRuntime) -> anyhow::Result<Vec<u8>> {
    let mut image = Vec::new(rt.alloc());
    let mut limited = rt.stdin().take(LONGEST_IMAGE + 1);
    limited.read_to_end(&mut image)?;
    Ok(image)
}

// The program of an image, or the refusal. A refusal is an answer here, and `?` passes on only the
// lack of memory.
fn read(rt: &HostRuntime, image: &[u8]) -> anyhow::Result<Result<Program, Refusal>> {
    let list = vec![in rt.alloc(); Instruction::Again; usize::from(Kind::Converted.longest())]?;
    Ok(reader::read(image, list).map_err(|back| back.refusal))
}

pub(crate) fn refuse(rt: &HostRuntime, refusal: Refusal) -> anyhow::Result<()> {
    println!(rt; "{refusal}: {}", refusal.reason)?;
    bail!("refused")
}

fn show(
    rt: &HostRuntime,
    arguments: &Arguments,
    image: &[u8],
    program: &Program,
) -> anyhow::Result<()> {
    shown::show_listing(rt, program)?;
    let bounds = bounds_of(rt.alloc(), program);
    rt.println(bounds)?;
    shown::show_written(rt, program, image)?;
    straightened::show_converted(rt, program, false)?;
    straightened::show_converted(rt, program, true)?;
    let inputs = running::inputs(rt, program, &arguments.inputs)?;
    if let Some(target) = &arguments.target {
        straightened::write_to(rt, program, arguments.hides, target.as_str())?;
    }
    if arguments.asks_for_run() {
        return running::show_run(rt, program, bounds, inputs);
    }
    Ok(())
}

fn main(rt: HostRuntime) -> anyhow::Result<()> {
    let arguments = arguments(&rt)?;
    let image = input(&rt)?;
    let program = read(&rt, &image)?;
    // Nothing but an image may then go to standard output, and no refusal.
    if arguments.goes_to_standard_output() {
        return straightened::pass_on(&rt, program, arguments.hides);
    }
    match program {
        Ok(program) => show(&rt, &arguments, &image, &program),
        Err(refusal) => refuse(&rt, refusal),
    }
}
