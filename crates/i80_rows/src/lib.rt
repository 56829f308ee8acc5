// The instruction set of the Intel 8080: reading and writing an instruction, by a table of 256 rows.
// `decode` returns an instruction exactly if the bytes begin with its encoding, and else says whether the
// opcode is undefined or operands are missing. `encode` writes the encoding; by `laws` there is only one.
// Nothing allocates, and only decoding can fail.
#![tactic(auto)]

pub mod decoding;
pub mod encoding;
pub mod laws;

pub use i80_base::{arithmetic, board, flags, instruction, memory};
