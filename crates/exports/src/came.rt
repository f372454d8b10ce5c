// An answer in numbers.
ghost use Rattle.std.specs.Prelude.{◌≡◌};
ghost use Rattle.exports.specs.Came.{came};

use crate::failed::Failed;

/// What is told where memory ran out: no reason has this number.
pub const OUT_OF_MEMORY: u8 = 255;

/// How many entries of a list were written, or the number and the place of a refusal. The number is 0 where nothing
/// is refused.
#[repr(C)]
#[derive(Clone, Copy)]
pub struct Came {
    pub number: u8,
    pub place: usize,
    pub length: usize,
}

/// Tells an answer.
pub(crate) fn told(answer: Result<usize, Failed>) -> Came
    ensures { result ≡ came answer }
{
    match answer {
        Ok(length) => Came {
            number: 0,
            place: 0,
            length,
        },
        Err(Failed::Refused(refusal)) => Came {
            number: refusal.number(),
            place: refusal.place,
            length: 0,
        },
        Err(Failed::OutOfMemory(_)) => Came {
            number: OUT_OF_MEMORY,
            place: 0,
            length: 0,
        },
    }
}
