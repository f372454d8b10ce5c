// How far in an instruction stands.
ghost use Rattle.std.specs.Prelude.{◌≡◌, ℕ, List, length, None};
ghost use Rattle.program.specs.declared.opening.Opening.{Opening};
ghost use Rattle.program.specs.Openings.{past};
ghost use Rattle.program.specs.Pairing.{wrong};
ghost use Rattle.outline.specs.Depths.{indent};

use instructions::Instruction;

/// How far in an instruction stands, inside so many openings.
pub fn indent_of(around: usize, instruction: Instruction) -> usize
    ensures { result ≡ indent around instruction }
{
    match instruction {
        Instruction::Else | Instruction::End | Instruction::Again => around.saturating_sub(1),
        _ => around,
    }
}

/// How many openings are open past an instruction that fits its openings.
pub fn open_past(around: usize, instruction: Instruction) -> usize
    ensures { (os : List Opening) (place : ℕ) → length os ≡ around → wrong os place instruction ≡ None → result ≡ length (past place instruction os) }
{
    match instruction {
        Instruction::If { .. } | Instruction::Repeat { .. } => around.saturating_add(1),
        Instruction::End | Instruction::Again => around.saturating_sub(1),
        _ => around,
    }
}
