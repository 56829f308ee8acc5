// lab80, an Intel 8080 laboratory: `lab80 asm` assembles and runs a cell, `lab80 dis` lists bytes as
// assembler text. What each word does is in `answer`, with its contract; this file calls it with the system's
// streams. `step` is the word of the program lab80_step; `kernel` and `term` are those of lab80_kernel.
#![tactic(auto)]

pub mod answer;

use answer::answer;
use base_streams::std_io::{StdInlet, StdOutlet};
use cli_io::report::flush_report;
use cli_io::words::read_words;
use std::io;
use std::process::ExitCode;

fn main(rt: HostRuntime) -> ExitCode {
    let words = match read_words(&rt) {
        Ok(words) => words,
        Err(status) => return ExitCode::from(status.number()),
    };
    let mut input = StdInlet::new(rt.reader());
    let mut output = StdOutlet::new(io::writer(&rt));
    let status = answer(&rt, &words, &mut input, &mut output);
    ExitCode::from(flush_report(status, &mut output.into_inner()).number())
}
