// `lab80 step` runs a program's bytes and prints what each instruction did. What the word does is in
// `answer`, with its contract; this file calls it with the system's streams. The other words are those of
// the programs lab80 and lab80_kernel: this one uses no assembler, so that it is built soon.
#![tactic(auto)]

pub mod answer;

use answer::answer;
use base_streams::std_io::{StdInlet, StdOutlet};
use cli_io::report::flush_report;
use cli_io::words::read_words;
use std::io;
use std::process::ExitCode;

fn main(rt: HostRuntime) -> ExitCode {
    let words = match read_words(&rt) {
        Ok(words) => words,
        Err(status) => return ExitCode::from(status.number()),
    };
    let mut input = StdInlet::new(rt.reader());
    let mut output = StdOutlet::new(io::writer(&rt));
    let status = answer(&rt, &words, &mut input, &mut output);
    ExitCode::from(flush_report(status, &mut output.into_inner()).number())
}
