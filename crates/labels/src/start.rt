// Where labels begin.
ghost use Rattle.std.specs.Prelude.{◌≡◌};
ghost use Rattle.labels.specs.Kinds.{Lawful, Rises, secrecy};
ghost use Rattle.labels.specs.Theorems.{Theory, SmallestExists, ArmsByHand};

use program::header::Header;

/// The secret registers on arriving at place 0. No move enters that place, so that these are the
/// secret entry registers; what else holds of the smallest sets stands here too.
pub fn at_start(header: &Header) -> u16
    ensures value { result ≡ header.now.secret_entry }
    ensures plain { Lawful secrecy }
    ensures rises { Rises secrecy 1 }
    ensures theory { Theory secrecy }
    ensures exists { SmallestExists }
    ensures arms { ArmsByHand }
{
    header.secret_entry
}
