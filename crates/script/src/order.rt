// A line as a call.
ghost use Rattle.std.specs.Prelude.{◌≡◌};
ghost use Rattle.script.specs.Orders.{asked_of, read_as, seat_of, put_of, arg_of, go_of, look_of, open_of, plain_of};

use crate::numbers::{number, word};
use crate::unread::Unread;
use crate::words::split;
use calls::{Call, MOST_VISITS};

/// What a line asks for: a call, or a seat of the image that a file holds.
#[derive(Drop)]
pub enum Order<'a> {
    Seat { file: &'a str },
    Call { call: Call },
}

fn put(rest: &str) -> Option<Call>
    ensures { result ≡ put_of rest.now }
{
    let (table, rest) = split(rest);
    let (index, last) = split(rest);
    Some(Call::Put {
        table: number(table)?,
        index: number(index)?,
        word: word(last)?,
    })
}

fn arg(rest: &str) -> Option<Call>
    ensures { result ≡ arg_of rest.now }
{
    let (register, last) = split(rest);
    Some(Call::Arg {
        register: number(register)?,
        word: word(last)?,
    })
}

fn go(rest: &str) -> Option<Call>
    ensures { result ≡ go_of rest.now }
{
    if rest.is_empty() {
        return Some(Call::Go { room: MOST_VISITS });
    }
    Some(Call::Go {
        room: number(rest)?,
    })
}

fn look(rest: &str) -> Option<Call>
    ensures { result ≡ look_of rest.now }
{
    let (table, index) = split(rest);
    Some(Call::Look {
        table: number(table)?,
        index: number(index)?,
    })
}

fn open(rest: &str) -> Option<Call>
    ensures { result ≡ open_of rest.now }
{
    let (table, index) = split(rest);
    Some(Call::Open {
        table: number(table)?,
        index: number(index)?,
    })
}

fn seat(rest: &str) -> Result<Order<'_>, Unread>
    ensures { asked_of result ≡ seat_of rest.now }
{
    if rest.is_empty() {
        return Err(Unread::NotItsArguments);
    }
    Ok(Order::Seat { file: rest })
}

// A call that takes nothing.
fn plain(call: Call, rest: &str) -> Option<Call>
    ensures { result ≡ plain_of call rest.now }
{
    rest.is_empty().then_some(call)
}

impl<'a> Order<'a> {
    /// The order of a line without spaces around it.
    pub fn parse(line: &'a str) -> Result<Order<'a>, Unread>
        ensures { asked_of result ≡ read_as line.now }
    {
        let (name, rest) = split(line);
        if name == "seat" {
            return seat(rest);
        }
        let call = match name {
            "put" => put(rest),
            "arg" => arg(rest),
            "go" => go(rest),
            "look" => look(rest),
            "open" => open(rest),
            "outcome" => plain(Call::Outcome, rest),
            "clear" => plain(Call::Clear, rest),
            _ => return Err(Unread::NoSuchCall),
        };
        match call {
            Some(call) => Ok(Order::Call { call }),
            None => Err(Unread::NotItsArguments),
        }
    }
}
