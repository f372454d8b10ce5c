// Piles, named bottom first. Each is a memory by the laws of its parts.
ghost use Rattle.std.specs.Prelude.{◌≡◌, min, replicate};
ghost use Rattle.banked.specs.Banks.{cells_of};

use banked::Banked;
use flat::Flat;
use full_scan::FullScan;
use layer::Over;
use leaf::Leaf;
use line::Line;
use memory::Mark;

/// A line over a full scan over a flat memory.
pub fn flat_scan_line(
    cells: Vec<u32>,
    list: Vec<Mark>,
    exponent: u32,
) -> Over<Line, Over<FullScan, Leaf<Flat>>>
    ensures exponent { result.layer.exponent ≡ min exponent 6 }
    ensures cells { result.below.below.cells.cells ≡ cells }
    ensures list { result.below.below.seen.list ≡ list }
    ensures empty { result.below.below.seen.count ≡ 0 }
{
    let flat = Leaf::new(Flat { cells }, list);
    Over::new(Line::new(exponent), Over::new(FullScan, flat))
}

/// A full scan over a line over a banked memory.
pub fn banked_line_scan(list: Vec<Mark>, exponent: u32) -> Over<FullScan, Over<Line, Leaf<Banked>>>
    ensures exponent { result.below.layer.exponent ≡ min exponent 6 }
    ensures cells { cells_of result.below.below.cells.banks ≡ replicate 1024 0 }
    ensures list { result.below.below.seen.list ≡ list }
    ensures empty { result.below.below.seen.count ≡ 0 }
{
    let banked = Leaf::new(Banked::new(), list);
    Over::new(FullScan, Over::new(Line::new(exponent), banked))
}
