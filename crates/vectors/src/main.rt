// Runs case files and prints how many of their cases agree.
#![tactic(auto)]

use anyhow::{bail, ensure};
use cases::file_report::FileReport;
use std::path::Path;
use std::{env, fs};
use tally::Tally;
use trials::room::Room;

fn run_file(rt: &HostRuntime, room: &mut Room, path: &str) -> anyhow::Result<Tally> {
    let Ok(text) = fs::read_to_string(rt, path) else {
        bail!("{path} cannot be read");
    };
    let report = case_files::run(rt.alloc(), room, text.as_str())?;
    let name = Path::new(path).file_stem().unwrap_or(path);
    rt.print(FileReport {
        name,
        report: &report,
    })?;
    Ok(report.tally)
}

fn run(rt: &HostRuntime) -> anyhow::Result<()> {
    let mut room = Room::new(rt.alloc());
    let mut total = Tally::default();
    for path in env::args(rt)?.skip(1) {
        total += run_file(rt, &mut room, path.as_str())?;
    }
    println!(rt; "total {total}")?;
    ensure!(total.all != 0, "no case was run: name case files");
    ensure!(total.whole(), "some cases do not agree");
    Ok(())
}

fn main(rt: HostRuntime) -> anyhow::Result<()> {
    run(&rt)
}
