// The instructions of a program, place by place.
ghost use Rattle.std.specs.Prelude.{◌≡◌, ◌+◌, ◌<◌, ◌∷◌, length, drop};
ghost use Rattle.machine.specs.Fits.{Fit};
ghost use Rattle.program.specs.Programs.{code_of};

use instructions::Instruction;
use program::program::Program;

/// The instruction at a place, with the bounds that its parts keep.
pub fn at(program: &Program, place: usize) -> Instruction
    requires { place < program.now.header.count }
    ensures here { drop place (code_of program.now) ≡ result ∷ drop (place + 1) (code_of program.now) }
    ensures fits { Fit 32 program.now.header.used result }
{
    program.code()[place]
}
