// Intel HEX, read and written: lines `:LLAAAATT..CC` of a count, an address, a kind, bytes, and a sum that is
// 0 modulo 256. `read_hex` returns the bytes with their addresses, in the order of the file, and the start;
// or the first fault with its line, exactly as Contents.antt defines it. `push_hex` appends records of at
// most 16 bytes, ascending, as Written.antt does. By `laws` the line of each record is read back as that
// record, and what is written, for all cells and each start, is read back whole. All time is linear.
#![tactic(auto)]

mod contents;
pub mod fault;
pub mod laws;
mod lines;
pub mod memory;
pub mod reading;
mod record;
pub mod writing;
