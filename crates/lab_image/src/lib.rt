// What is loaded: texts, the bytes that a cell gives, the origin of each address, and breakpoints by line.
// A load writes its bytes in order and nothing else of the machine; out of memory, it changes nothing.
// The origin of an address comes from the last row of all loads that covers it; the rows are kept as spans.
// A text is kept once under its path, its number never changes, and at most 1,024 are kept.
// A breakpoint is met at the first byte of each statement on its line; a step looks up one byte for it.
#![tactic(auto)]

pub mod address_set;
pub mod breakpoints;
pub mod lines;
pub mod lists;
pub mod mapped;
pub mod origin;
pub mod origins;
pub mod sources;
mod spans;
