// The parts of an Intel 8080: its instructions, flags and arithmetic, and the ports of its devices.
// Each arithmetic function returns a result with its five flags, which are defined by sums of whole numbers.
// The crates above read and write instructions as bytes (i80_rows) and execute them (i80_exec); they pass on
// these modules under their own names.
#![tactic(auto)]

pub mod arithmetic;
pub mod board;
pub mod flags;
pub mod instruction;
pub mod memory;
pub mod ports;
