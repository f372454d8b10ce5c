// Passes over all places, until one changes nothing.
ghost use Rattle.std.specs.Prelude.{◌≡◌, ℕ, ◌+◌, ◌<◌, [], length, take, slice_index};
ghost use Rattle.program.specs.Refusals.{refused_by};
ghost use Rattle.labels.specs.Kinds.{secrecy};
ghost use Rattle.labels.specs.Rules.{Smallest};
ghost use Rattle.labels.specs.Passes.{sweep, Rising};
ghost use Rattle.labels.specs.Sets.{bits, sets, secret_tables, Grew};
ghost use Rattle.plan.specs.Planned.{plan_refusal, Planned, Passable};

use crate::flow::flow;
use instructions::Instruction;
use labels::start::at_start;
use masks::masks::Masks;
use program::header::{Header, Kind, Table};
use program::program::Program;
use program::refusal::{Reason, Refusal};

// One pass over all places; says whether anything changed.
fn pass_over(code: &[Instruction], tables: &[Table; 8], list: &mut [u16]) -> bool
    requires code { Passable code.now }
    requires long { length list.old ≡ length code.now + 1 }
    ensures sets { sets list.new ≡ sweep secrecy (secret_tables tables.now) [] 0 code.now (sets list.old) }
    ensures grew { Grew result list.old list.new }
{
    let mut masks = Masks::new();
    let mut changed = false;
    for (place, instruction) in code.iter().enumerate() {
        // Read by its number, since the pass changes the list as it goes.
        let set = list[place];
        changed |= flow(*instruction, &masks, list, place, tables);
        masks.pass(*instruction, place, set);
    }
    changed
}

// Passes until one changes nothing. Each one that changes something leaves less room in the numbers.
fn settle(code: &[Instruction], header: &Header, list: &mut [u16])
    requires code { Passable code.now }
    requires long { length list.old ≡ length code.now + 1 }
    requires rising { Rising secrecy (secret_tables header.now.tables) (bits header.now.secret_entry) code.now (sets list.old) }
    ensures { Smallest secrecy (secret_tables header.now.tables) (bits header.now.secret_entry) code.now (sets list.new) }
{
    while pass_over(code, &header.tables, list) {}
}

// Nothing is secret but some registers at place 0.
fn clear(list: &mut [u16], start: u16)
    requires { 0 < length list.old }
    ensures first { slice_index list.new 0 ≡ start }
    ensures others { (k : ℕ) → 0 < k → slice_index list.new k ≡ 0 }
{
    list.fill(0);
    list[0] = start;
}

/// Writes the smallest sets of secret registers of a source: a number for each place and one for
/// the place after the last, bit i for register i. Later entries of the list stay.
pub fn plan(program: &Program, list: &mut [u16]) -> Result<(), Refusal>
    ensures answer { refused_by result ≡ plan_refusal program.now.header (length list.old) }
    ensures list { Planned result program.now.header (take program.now.header.count program.now.list.items) list.old list.new }
{
    let header = program.header();
    if header.kind != Kind::Source {
        return Err(Reason::NotASource.into());
    }
    let needed = usize::from(header.count) + 1;
    if list.len() < needed {
        return Err(Reason::NoRoomForResult.at(needed));
    }
    let part = &mut list[..needed];
    clear(part, at_start(&header));
    settle(program.code(), &header, part);
    Ok(())
}
