// The calls of a script, with the images that it names.
use crate::halt::Halt;
use calls::Call;
use script::order::Order;
use script::script::{Line, Script};
use std::alloc::AllocError;
use std::fs;
use std::path::Path;

/// What a log has to know of a call.
#[derive(Clone, Copy, PartialEq, Eq)]
pub(crate) enum Kind {
    Seat,
    Clear,
    Other,
}

/// A call as its line tells it.
#[derive(Clone, Copy)]
pub(crate) struct Told<'a> {
    pub number: usize,
    pub text: &'a str,
    pub kind: Kind,
}

// The calls stand by themselves, since they are played as a list.
/// The calls, and how the script tells each.
#[derive(Drop)]
pub(crate) struct Taken<'a> {
    pub told: Vec<Told<'a>>,
    pub calls: Vec<Call>,
    pub halt: Option<Halt<'a>>,
}

fn kind_of(call: &Call) -> Kind {
    match call {
        Call::Seat { .. } => Kind::Seat,
        Call::Clear => Kind::Clear,
        _ => Kind::Other,
    }
}

// The call that a line asks for, unless it names a file that cannot be read. A file lies beside the script.
fn call_of(rt: &HostRuntime, script: &str, order: Order) -> Result<Option<Call>, AllocError> {
    let file = match order {
        Order::Seat { file } => file,
        Order::Call { call } => return Ok(Some(call)),
    };
    let path = Path::new(script).with_file_name(rt.alloc(), file)?;
    match fs::read(rt, path.as_path()) {
        Ok(image) => Ok(Some(Call::Seat { image })),
        Err(_) => Ok(None),
    }
}

/// The calls of a script that lies at a path, up to the first whose image cannot be read.
pub(crate) fn take<'a>(
    rt: &HostRuntime,
    path: &str,
    script: Script<'a>,
) -> Result<Taken<'a>, AllocError> {
    let mut told = Vec::new(rt.alloc());
    let mut calls = Vec::new(rt.alloc());
    let Script { lines, stop } = script;
    for line in lines {
        let Line {
            number,
            text,
            order,
        } = line;
        let text = text.trim();
        let Some(call) = call_of(rt, path, order)? else {
            let halt = Some(Halt::NoImage { number, text });
            return Ok(Taken { told, calls, halt });
        };
        told.push(Told {
            number,
            text,
            kind: kind_of(&call),
        })?;
        calls.push(call)?;
    }
    let halt = stop.map(|stop| Halt::NoCall(stop));
    Ok(Taken { told, calls, halt })
}
