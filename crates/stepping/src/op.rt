// What an op does to registers and memory.
ghost use Rattle.std.specs.Prelude.{◌<◌, is_ok};
ghost use Rattle.memory.specs.declared.Access.TheVariants.{Read, Write};
ghost use Rattle.machine.specs.Fits.{FitOp};
ghost use Rattle.stepping.specs.Turns.{Loaded, Stored, Done, Allowed, ReadyOp};

use crate::access::{fetch, keep};
use instructions::{Op, Register};
use machine::words;
use memory::Memory;
use memory::window::Window;
use windows::of_table;

/// An index that is not below the length of its table.
#[derive(Clone, Copy)]
pub struct OutsideTable;

fn load<M: Memory>(
    target: Register,
    off: usize,
    window: Window,
    registers: &mut [u32; 32],
    memory: &mut M,
) -> Result<(), OutsideTable>
    requires fits { target < 32 }
    requires allowed { Allowed (M.model memory.old) Read off window }
    ensures { Loaded registers.old (M.model memory.old) (is_ok result) registers.new (M.model memory.new) target off window }
{
    if off >= window.length {
        return Err(OutsideTable);
    }
    registers[usize::from(target)] = fetch(memory, window, off);
    Ok(())
}

fn store<M: Memory>(
    word: u32,
    at: usize,
    window: Window,
    memory: &mut M,
) -> Result<(), OutsideTable>
    requires { Allowed (M.model memory.old) Write at window }
    ensures { Stored (M.model memory.old) (is_ok result) (M.model memory.new) word at window }
{
    if at >= window.length {
        return Err(OutsideTable);
    }
    keep(memory, window, at, word);
    Ok(())
}

// Ops stand plain in a list of the caller's, so that they fit is asked here and comes from the program.
/// Does an op; where its index is outside its table nothing changes.
pub fn perform<M: Memory>(
    op: Op,
    windows: &[Window; 8],
    registers: &mut [u32; 32],
    memory: &mut M,
) -> Result<(), OutsideTable>
    requires fits { FitOp 32 8 op }
    requires ready { ReadyOp windows.now registers.old (M.model memory.old) op }
    ensures { Done windows.now registers.old (M.model memory.old) (is_ok result) registers.new (M.model memory.new) op }
{
    match op {
        Op::Set { target, value } => {
            registers[usize::from(target)] = words::value(value, registers);
            Ok(())
        }
        Op::Pick {
            target,
            condition,
            from,
        } => {
            let source = if registers[usize::from(condition)] == 0 {
                target
            } else {
                from
            };
            registers[usize::from(target)] = registers[usize::from(source)];
            Ok(())
        }
        Op::Load {
            target,
            index,
            table,
        } => {
            let off = registers[usize::from(index)] as usize;
            load(target, off, of_table(windows, table), registers, memory)
        }
        Op::Store { from, index, table } => {
            let at = registers[usize::from(index)] as usize;
            let word = registers[usize::from(from)];
            store(word, at, of_table(windows, table), memory)
        }
    }
}
