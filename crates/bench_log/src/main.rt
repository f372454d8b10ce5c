// Plays a script of calls on a bench over a memory that is named, and prints a log of what each call
// answered and showed.
#![tactic(auto)]

mod added;
mod answered;
mod halt;
mod taken;
mod totals;

use added::Added;
use answered::Answered;
use anyhow::bail;
use layered::pile::Pile;
use makes::make::Make;
use makes::named;
use makes::shown::Seen;
use player::entry::Entry;
use player::play::{Played, play};
use report::ran::VisitLine;
use script::script::Script;
use std::{env, fs};
use taken::{Kind, Taken, Told, take};
use totals::Totals;

fn arguments(rt: &HostRuntime) -> anyhow::Result<(String, String)> {
    let mut words = env::args(rt)?.skip(1);
    match (words.next(), words.next(), words.next()) {
        (Some(pile), Some(script), None) => Ok((pile, script)),
        _ => bail!("a pile and a script are wanted, as in: bench_log flat:64:4096 SCRIPT"),
    }
}

// A pile of this name, all its cells 0.
fn pile_of(rt: &HostRuntime, name: &str) -> anyhow::Result<Pile> {
    match name.parse::<Make>() {
        Ok(make) => Ok(named::pile(rt.alloc(), make, "-")?),
        Err(why) => bail!("{name}: {why}"),
    }
}

// A call as it was read, what it answered, and each visit of a go.
fn show(rt: &HostRuntime, told: &Told, entry: &Entry) -> anyhow::Result<()> {
    let number = told.number;
    let text = told.text;
    println!(rt; "{number}: {text}")?;
    rt.println(Answered {
        kind: told.kind,
        answer: entry.answer,
    })?;
    for visit in entry.visits.iter() {
        let visit = VisitLine { visit: *visit };
        println!(rt; "    {visit}")?;
    }
    Ok(())
}

// A memory has the marks since the last clear; those before are only counted.
fn show_all(rt: &HostRuntime, told: &[Told], played: &Played<Pile>) -> anyhow::Result<()> {
    let memory = &played.memory;
    let last_clear = told.iter().rposition(|told| told.kind == Kind::Clear);
    let mut totals = Totals::default();
    for (index, (told, entry)) in told.iter().zip(&played.log).enumerate() {
        show(rt, told, entry)?;
        rt.println(Added {
            memory,
            before: totals.seen,
            after: entry.marks,
            kept: last_clear.is_none_or(|clear| clear < index),
        })?;
        totals.add(entry);
    }
    rt.println(totals)?;
    println!(rt; "marks seen: {}", Seen { memory })?;
    Ok(())
}

fn main(rt: HostRuntime) -> anyhow::Result<()> {
    let (name, path) = arguments(&rt)?;
    let pile = pile_of(&rt, name.as_str())?;
    let Ok(text) = fs::read_to_string(&rt, path.as_str()) else {
        bail!("{path} cannot be read");
    };
    let script = Script::read(rt.alloc(), text.as_str())?;
    let Taken { told, calls, halt } = take(&rt, path.as_str(), script)?;
    let played = play(rt.alloc(), pile, &calls)?;
    show_all(&rt, &told, &played)?;
    match halt {
        Some(halt) => bail!("{halt}"),
        None => Ok(()),
    }
}
