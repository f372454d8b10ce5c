// The converter: a source becomes a program without secret ifs, or is refused.
#![tactic(auto)]

ghost use Rattle.std.specs.Prelude.{◌≡◌, ℕ, ◌≤◌, [], ◌++◌, length, drop, IfOk};
ghost use Rattle.program.specs.Refusals.{refused_by};
ghost use Rattle.program.specs.Programs.{code_of};
ghost use Rattle.counting.specs.Counting.{Countable};
ghost use Rattle.converter.specs.Converting.{result_of, size_refusal, convert_refusal, Converts};
ghost use Rattle.converter.specs.Straight.{Straightens};
ghost use Rattle.converter.specs.Keeps.{KeepsWhat};
ghost use Rattle.converter.specs.AnyMaker.{OfAnyMaker};

use crate::check::check;
use crate::labelled::Labelled;
use crate::places::convert_all;
use counting::most_steps_of;
use groups::output::Output;
use instructions::Instruction;
use plan::plan::plan;
use program::handed_back::HandedBack;
use program::header::{Header, Kind};
use program::program::Program;
use program::refusal::{Reason, Refusal};

mod check;
mod labelled;
pub mod parts;
mod places;

/// The most steps that a result may make.
const MOST_STEPS: usize = 1_000_000;

// Whether the result has few enough steps, and a list of `room` entries can take it. That it can be counted is asked
// of code that is in no program yet.
fn size_fits(code: &[Instruction], room: usize) -> Result<(), Refusal>
    requires { Countable code.now }
    ensures { refused_by result ≡ size_refusal code.now room }
{
    if most_steps_of(code) > MOST_STEPS {
        return Err(Reason::TooManySteps.into());
    }
    if room < code.len() {
        return Err(Reason::NoRoomForResult.at(code.len()));
    }
    Ok(())
}

// Converts into an own list, since what is refused changes none that was handed in. The list is lent, since
// it is long, and to move it takes longer than to convert.
fn attempt(source: &Program, hides: bool, room: usize, out: &mut Output) -> Result<(), Refusal>
    requires { out.old ≡ [] }
    ensures answer { refused_by result ≡ convert_refusal source.now.header (code_of source.now) hides room }
    ensures result { IfOk result (λ _. out.new ≡ result_of source.now.header (code_of source.now)) }
{
    // A source has at most 200 places, and nothing is allocated.
    let mut sets = [0u16; 201];
    plan(source, &mut sets)?;
    let header = source.header();
    let labelled = Labelled {
        code: source.code(),
        tables: &header.tables,
        plan: &sets[..usize::from(header.count) + 1],
    };
    check(&labelled, hides)?;
    convert_all(out, &labelled);
    size_fits(out.as_slice(), room)
}

fn fill(list: &mut Vec<Instruction>, code: &[Instruction])
    requires { length code.now ≤ length list.old.items }
    ensures { list.new.items ≡ code.now ++ drop (length code.now) list.old.items }
{
    list[0..code.len()].copy_from_slice(code);
}

/// Converts a source into the list: its first entries become the result's instructions, and later
/// ones stay. `hides` says whether the memory hides which cell of a table is accessed. A refusal
/// hands the list back unchanged.
pub fn convert(
    source: &Program,
    hides: bool,
    mut list: Vec<Instruction>,
) -> Result<Program, HandedBack>
    ensures answer { Converts source.now hides list.items result }
    ensures straight { Straightens source.now result }
    ensures keeps { KeepsWhat source.now hides result }
    ensures any { OfAnyMaker }
{
    let mut out = Output::new();
    match attempt(source, hides, list.len(), &mut out) {
        Ok(()) => {}
        Err(refusal) => return Err(HandedBack { refusal, list }),
    }
    let code = out.as_slice();
    fill(&mut list, code);
    let header = Header {
        kind: Kind::Converted,
        count: code.len() as u16,
        ..source.header()
    };
    Ok(Program::new(header, list))
}
