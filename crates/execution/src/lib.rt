// Whole runs: how far a run goes and what it counts, read off the nested blocks of its program.
#![tactic(auto)]

ghost use Rattle.std.specs.Prelude.{◌≡◌, nat_le};
ghost use Rattle.execution.specs.Runs.{RunsEnd};

/// Whether a run that goes on at `place` has come to the end of `count` instructions. Every run of
/// nested blocks comes there or to a fault.
pub fn is_over(place: usize, count: usize) -> bool
    ensures value { result ≡ nat_le count place }
    ensures runs { RunsEnd }
{
    place >= count
}
