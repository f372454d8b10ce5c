// The pass that counts.
ghost use Rattle.std.specs.Prelude.{◌≡◌, ◌+◌, ◌≤◌, []};
ghost use Rattle.stack.specs.Held.{held};
ghost use Rattle.machine.specs.Fits.{FitOp, Fit};
ghost use Rattle.program.specs.Hold.{hold};
ghost use Rattle.machine.specs.Most.{price};
ghost use Rattle.counting.specs.Counting.{open_bracket, entered, priced, Added, sums, Countable};

use crate::open_bracket::OpenBracket;
use crate::price::Price;
use instructions::{Instruction, Op};
use stack::Stack;

// A number and no Option, since contracts give the number that is held.
/// What is larger is held at this.
const HELD: usize = 1_000_001;

/// The open brackets, and what is counted so far inside the innermost.
#[derive(Drop)]
struct Pass {
    brackets: Stack<OpenBracket>,
    sum: usize,
    ghost small: { sum ≤ 1000001 },
}

// A sum of three, held.
fn total(x: usize, y: usize, z: usize) -> usize
    ensures value { result ≡ hold (x + (y + z)) }
    ensures small { result ≤ 1000001 }
{
    x.saturating_add(y).saturating_add(z).min(HELD)
}

// Bounds are asked of ops and instructions that stand plain in a list of the caller's.
fn with_op(sum: usize, op: Op, prices: &Price) -> usize
    requires { FitOp 32 8 op }
    ensures value { result ≡ hold (sum + price (priced prices.now.step prices.now.tables) op) }
    ensures small { result ≤ 1000001 }
{
    let access = match op {
        Op::Set { .. } | Op::Pick { .. } => 0,
        Op::Load { table, .. } => prices.tables[usize::from(table)].read,
        Op::Store { table, .. } => prices.tables[usize::from(table)].write,
    };
    total(sum, prices.step, access)
}

impl Pass {
    // A bracket opens, and goes round so often.
    fn enter(&mut self, rounds: usize)
        ensures inside { held self.new.brackets ≡ entered (open_bracket self.old.sum 0 rounds) (held self.old.brackets) }
        ensures none { self.new.sum ≡ 0 }
    {
        let _ = self.brackets.push(OpenBracket {
            before: self.sum,
            first_arm: 0,
            rounds,
        });
        self.sum = 0;
    }

    // Passes the instruction.
    fn add(&mut self, instruction: Instruction, prices: &Price)
        requires { Fit 32 8 instruction }
        ensures { Added (priced prices.now.step prices.now.tables) instruction (held self.old.brackets) self.old.sum (held self.new.brackets) self.new.sum }
    {
        let bracket = self.brackets.top().unwrap_or_default();
        let step = prices.step;
        match instruction {
            Instruction::Do { op } => self.sum = with_op(self.sum, op, prices),
            Instruction::If { .. } => self.enter(0),
            Instruction::Else => {
                self.brackets.swap(OpenBracket {
                    before: bracket.before,
                    first_arm: self.sum + step,
                    rounds: 0,
                });
                self.sum = 0;
            }
            Instruction::End => {
                self.brackets.pop();
                self.sum = total(bracket.before, 2 * step, bracket.first_arm.max(self.sum));
            }
            Instruction::Repeat { most, .. } => self.enter(most as usize),
            Instruction::Again => {
                self.brackets.pop();
                let rounds = bracket.rounds.saturating_mul(self.sum + step);
                self.sum = total(bracket.before, step, rounds);
            }
        }
    }
}

/// The most that a row of instructions counts, by one pass over it.
pub fn most(code: &[Instruction], prices: &Price) -> usize
    requires { Countable code.now }
    ensures { result ≡ sums (priced prices.now.step prices.now.tables) [] 0 code.now }
{
    let mut pass = Pass {
        brackets: Stack::new(OpenBracket::default()),
        sum: 0,
    };
    for instruction in code {
        pass.add(*instruction, prices);
    }
    pass.sum
}
