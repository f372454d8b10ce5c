// Sets of registers as numbers of 16 bits: bit i for register i. They stay plain numbers, since the
// list of them is one that the caller hands in.
ghost use Rattle.std.specs.Prelude.{◌≡◌, ◌<◌, ◌||◌, bit_or};
ghost use Rattle.labels.specs.Kinds.{secrecy};
ghost use Rattle.labels.specs.Rules.{put};
ghost use Rattle.labels.specs.Sets.{bits, either};

use instructions::Register;

/// Whether a register is in a set.
pub fn has(set: u16, register: Register) -> bool
    ensures { result ≡ bits set register }
{
    register < 16 && (set >> register) % 2 == 1
}

/// A set, with the register in it or not in it.
pub fn with(set: u16, register: Register, secret: bool) -> u16
    requires { register < 16 }
    ensures { bits result ≡ put secrecy (bits set) register secret }
{
    let bit = 1u16 << register;
    if secret { set | bit } else { set ^ (set & bit) }
}

/// The registers that are in one of two sets.
pub fn joined(left: u16, right: u16) -> u16
    ensures value { result ≡ bit_or left right }
    ensures set { bits result ≡ either (bits left) (bits right) }
{
    left | right
}
