// The input and output of the programs: the words of the command line and their meaning (Command.antt), and
// the text that engines read and write, over any inlet and outlet. `read_hex` returns the bytes of
// hexadecimal text, or a fault; `read_text` a text up to a limit, past which it keeps nothing; `read_all`
// all bytes. They report a failed read exactly if one failed, or the input didn't end. `deliver` writes a
// report and returns its status, or that a write failed.
#![tactic(auto)]

pub mod command;
mod hex_input;
mod intake;
pub mod reading;
pub mod report;
pub mod status;
mod text_input;
pub mod words;
