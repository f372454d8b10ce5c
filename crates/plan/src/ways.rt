// The ways along which sets go at one place.
ghost use Rattle.std.specs.Prelude.{◌≡◌, ℕ, ◌+◌, ◌<◌, length};
ghost use Rattle.labels.specs.Kinds.{secrecy};
ghost use Rattle.labels.specs.Rules.{way, ways};
ghost use Rattle.labels.specs.Passes.{Ahead, along};
ghost use Rattle.labels.specs.Sets.{sets, Grew};

use crate::flow::along;
use instructions::Instruction;
use labels::way::Way;
use masks::masks::Masks;
use program::opening::{Marked, Opening};

fn way(from: usize, to: usize) -> Way
    ensures { result ≡ way from to }
{
    Way { from, to }
}

// Along the ways that the instruction at `place` settles, in the list itself: a list of ways that were
// answered takes longer than to go along them.
pub(crate) fn along_ways(
    masks: &Masks,
    instruction: Instruction,
    list: &mut [u16],
    place: usize,
) -> bool
    requires { (Ahead place masks.now.openings) × (place + 1 < length list.old) }
    ensures sets { sets list.new ≡ along secrecy (ways secrecy masks.now.openings place instruction) (sets list.old) }
    ensures grew { Grew result list.old list.new }
{
    let onward = way(place, place + 1);
    if let Instruction::If { .. } | Instruction::Repeat { .. } = instruction {
        return along(list, &[onward]);
    }
    let Some(Marked { opening, label }) = masks.innermost() else {
        return along(list, &[]);
    };
    match (instruction, opening) {
        (Instruction::Else, Opening::Then { place: opened, .. }) if label => {
            along(list, &[way(opened, place + 1), onward])
        }
        (Instruction::Else, Opening::Then { place: opened, .. }) => {
            along(list, &[way(opened, place + 1)])
        }
        (
            Instruction::End,
            Opening::Then { place: from, .. } | Opening::Otherwise { middle: from, .. },
        ) => along(list, &[way(from, place), onward]),
        (Instruction::Again, Opening::Loop { place: opened }) => {
            along(
                list,
                &[way(place, opened + 1), onward, way(opened, place + 1)],
            )
        }
        _ => along(list, &[]),
    }
}
