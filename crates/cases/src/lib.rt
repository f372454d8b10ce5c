// Case files: each line a case with the answer that is expected, run and held to it.
#![tactic(auto)]

pub mod bytes;
pub mod case;
pub mod case_error;
pub mod case_file;
pub mod file_report;
pub mod plans;
pub mod visits;
mod ways;
