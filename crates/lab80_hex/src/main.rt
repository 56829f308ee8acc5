// `lab80-hex` assembles the cell on standard input and writes its bytes to standard output: as Intel HEX, or
// with `--binary` and `--com` as they are; with `--list` it reads Intel HEX and writes a cell that assembles
// to it; `--help` and `--version` print there. What each does is in `answer`, with its contract, which cites
// the contracts of the engines (cli_hex); this file calls it with the system's streams. Any other words are
// answered by the usage on standard error.
#![tactic(auto)]

mod about;
mod answer;
mod command;

use answer::answer;
use base_streams::std_io::{StdInlet, StdOutlet};
use cli_io::report::flush_report;
use command::read_command;
use std::io;
use std::process::ExitCode;

fn main(rt: HostRuntime) -> ExitCode {
    let command = match read_command(&rt) {
        Ok(command) => command,
        Err(status) => return ExitCode::from(status.number()),
    };
    let mut input = StdInlet::new(rt.reader());
    let mut output = StdOutlet::new(io::writer(&rt));
    let status = answer(&rt, command, &mut input, &mut output);
    ExitCode::from(flush_report(status, &mut output.into_inner()).number())
}
