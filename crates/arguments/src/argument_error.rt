// Why the arguments make no sense.
ghost use Rattle.std.specs.Prelude.{◌≡◌, Some, alloc_error};
ghost use Rattle.arguments.specs.declared.argument_error.ArgumentError.TheVariants.{OutOfMemory};
ghost use Rattle.arguments.specs.Wording.{argument_error_text};

use std::alloc::{AllocError, AllocFailed};
use std::error::Error;
use std::fmt;

#[derive(Clone, Copy, Debug, PartialEq, Eq)]
pub enum ArgumentError {
    /// The word `convert` with no word behind it.
    NoTarget,
    /// The word `convert` a second time.
    SecondTarget,
    /// The word `hides` where nothing is to be converted.
    HidesNothing,
    /// A run, where nothing but an image may go to standard output.
    RunUnseen,
    OutOfMemory(AllocError),
}

impl fmt::Display for ArgumentError {
    ghost output = { λ why. Some (argument_error_text why) };

    fn fmt<W: fmt::Write>(&self, f: &mut fmt::Formatter<W>) -> fmt::Result {
        f.write_str(match self {
            ArgumentError::NoTarget => "convert names no file",
            ArgumentError::SecondTarget => "convert stands twice",
            ArgumentError::HidesNothing => "hides stands without convert",
            ArgumentError::RunUnseen => "convert - shows no run",
            ArgumentError::OutOfMemory(_) => "out of memory",
        })
    }
}

impl Error for ArgumentError {}

impl<T: Drop> From<AllocFailed<T>> for ArgumentError {
    ghost from_gives = { λ full e. e ≡ OutOfMemory alloc_error };

    fn from(full: AllocFailed<T>) -> ArgumentError {
        ArgumentError::OutOfMemory(full.into())
    }
}
