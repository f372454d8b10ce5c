// A static library: images read, labelled, converted and run, and case files run, for a program in another language.
// All crosses as numbers and slices, so each call reads its image anew. A step may be made `again` so many times
// before, into lists that are dropped, for whoever measures how long it takes.
#![tactic(auto)]

pub mod came;
pub mod case_file;
pub mod converting;
pub mod failed;
pub mod planning;
pub mod reading;
pub mod running;
