// Programs without source: Intel HEX, programs for CP/M, and bytes. `image_text` returns the listing of a
// program's bytes in memory, and END with its start; or why it has none, exactly as Texts.antt defines it.
// By `laws` that text is a cell, which assembles over any kept symbols to the bytes at their addresses and to
// the start; and the board's Load event of it stores each byte of the program at its address, and leaves the
// rest of memory, the registers and the symbols as they were. All time is linear.
#![tactic(auto)]

pub mod fault;
mod image;
pub mod laws;
pub mod text;
