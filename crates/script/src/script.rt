// A text as a list of orders.
ghost use Rattle.std.specs.Prelude.{◌≡◌, IfOk, map, option_map};
ghost use Rattle.std.specs.Str.Lines.{lines};
ghost use Rattle.script.specs.Orders.{asked_of};
ghost use Rattle.script.specs.Scripts.{line_asks, told, told_from};

use crate::order::Order;
use crate::unread::{Stop, Unread};
use std::alloc::{AllocError, Global};

/// A line that asks for something, with its number from 1 on.
#[derive(Drop)]
pub struct Line<'a> {
    pub number: usize,
    pub text: &'a str,
    pub order: Order<'a>,
}

/// What a text asks for, up to the first line that is no call, if there is one.
#[derive(Drop)]
pub struct Script<'a> {
    pub lines: Vec<Line<'a>>,
    pub stop: Option<Stop>,
}

// A line without anything and a comment ask for nothing. Spaces around a line do not count.
fn order(line: &str) -> Option<Result<Order<'_>, Unread>>
    ensures { option_map asked_of result ≡ line_asks line.now }
{
    let line = line.trim();
    if line.is_empty() || line.starts_with('#') {
        return None;
    }
    Some(Order::parse(line))
}

fn lines(heap: Global, text: &str) -> Result<Vec<&str>, AllocError>
    ensures { IfOk result (λ v. map (λ l. l.now) v.items ≡ lines text.now) }
{
    text.lines().collect(heap)
}

impl<'a> Script<'a> {
    /// Reads a text, a call to a line.
    pub fn read(heap: Global, text: &'a str) -> Result<Script<'a>, AllocError>
        ensures { IfOk result (λ s. told s ≡ told_from 1 (lines text.now)) }
    {
        let all = lines(heap, text)?;
        let mut lines = Vec::new(heap);
        for (index, text) in all.iter().enumerate() {
            match order(text) {
                Some(Ok(order)) => lines.push(Line {
                    number: index + 1,
                    text,
                    order,
                })?,
                Some(Err(why)) => {
                    return Ok(Script {
                        lines,
                        stop: Some(Stop {
                            line: index + 1,
                            why,
                        }),
                    });
                }
                None => (),
            }
        }
        Ok(Script { lines, stop: None })
    }
}
