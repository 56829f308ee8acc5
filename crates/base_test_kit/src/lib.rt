// For all tests: the parts of their rows; and a reader and a writer for what reads and writes through std,
// which move few bytes at a time, are interrupted, and fail. Nothing but tests depends on this crate.
#![tactic(auto)]

pub mod fakes;
pub mod rows;
