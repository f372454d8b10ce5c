// Why there is no answer.
ghost use Rattle.std.specs.Prelude.{◌≡◌, alloc_error};
ghost use Rattle.exports.specs.declared.failed.Failed.TheVariants.{Refused, OutOfMemory};

use program::handed_back::HandedBack;
use program::refusal::Refusal;
use std::alloc::{AllocError, AllocFailed};

#[derive(Clone, Copy)]
pub enum Failed {
    Refused(Refusal),
    OutOfMemory(AllocError),
}

impl From<Refusal> for Failed {
    ghost from_gives = { λ refusal e. e ≡ Refused refusal };

    fn from(refusal: Refusal) -> Failed {
        Failed::Refused(refusal)
    }
}

impl From<HandedBack> for Failed {
    ghost from_gives = { λ back e. e ≡ Refused back.refusal };

    fn from(back: HandedBack) -> Failed {
        Failed::Refused(back.refusal)
    }
}

impl From<AllocError> for Failed {
    ghost from_gives = { λ full e. e ≡ OutOfMemory full };

    fn from(full: AllocError) -> Failed {
        Failed::OutOfMemory(full)
    }
}

impl<T: Drop> From<AllocFailed<T>> for Failed {
    ghost from_gives = { λ full e. e ≡ OutOfMemory alloc_error };

    fn from(full: AllocFailed<T>) -> Failed {
        AllocError::from(full).into()
    }
}
