// The engines of the words `asm` and `dis`, over any inlet and outlet. `run_asm` assembles a cell and runs
// its program on a computer of its own (cli_run); `run_dis` lists bytes. An engine writes the text that
// AsmText.antt or DisText.antt states for what it reads; or a prefix of it, if its status is that it ran out
// of memory, or that a read or a write failed, which it returns exactly if one did.
#![tactic(auto)]

pub mod asm;
pub mod dis;
mod image;
