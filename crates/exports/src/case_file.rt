// Case files run.
ghost use Rattle.std.specs.Prelude.{◌≡◌};
ghost use Rattle.std.specs.Str.{IsUtf8};
ghost use Rattle.exports.specs.CaseFile.{Told};

use crate::came::OUT_OF_MEMORY;
use std::alloc::Global;
use tally::report::Report;
use trials::room::Room;

/// What is told where the bytes are no text.
pub const NO_TEXT: u8 = 254;

/// How many cases agree, of how many. The number is 0 where the cases were run.
#[repr(C)]
#[derive(Clone, Copy)]
pub struct Agreed {
    pub number: u8,
    pub agree: usize,
    pub all: usize,
}

fn failed(number: u8) -> Agreed
    ensures { result.number ≡ number }
{
    Agreed {
        number,
        agree: 0,
        all: 0,
    }
}

fn told(report: &Report) -> Agreed
    ensures number { result.number ≡ 0 }
    ensures agree { result.agree ≡ report.now.tally.agree }
    ensures all { result.all ≡ report.now.tally.all }
{
    Agreed {
        number: 0,
        agree: report.tally.agree,
        all: report.tally.all,
    }
}

/// Runs the cases of a text.
#[unsafe(no_mangle)]
pub extern "C" fn exports_case_file(heap: Global, bytes: &[u8]) -> Agreed
    ensures counted { Told bytes.now result }
    ensures text { IsUtf8 bytes.now → ¬ (result.number ≡ 255) → result.number ≡ 0 }
    ensures no_text { ¬ (IsUtf8 bytes.now) → result.number ≡ 254 }
{
    let Ok(text) = std::str::from_utf8(bytes) else {
        return failed(NO_TEXT);
    };
    match case_files::run(heap, &mut Room::new(heap), text) {
        Ok(report) => told(&report),
        Err(_) => failed(OUT_OF_MEMORY),
    }
}
