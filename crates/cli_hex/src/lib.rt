// The engines of `lab80-hex`, over any inlet and outlet. `run_hex` assembles a cell and writes its bytes as
// Intel HEX or as they are; `run_hex_list` reads Intel HEX and writes a cell that assembles to it. An engine
// writes the bytes that HexOutput.antt or ListOutput.antt states for what it reads; or a prefix of them, if
// its status is that it ran out of memory, or that a read or a write failed, which it returns exactly if one
// did.
#![tactic(auto)]

mod answer;
mod binary;
pub mod hex;
pub mod list;
