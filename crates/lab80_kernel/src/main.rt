// lab80's kernel. `lab80 kernel FILE` serves as the Jupyter kernel of a connection file; `lab80 term FILE`
// runs the cell on standard input on such a kernel, and prints its output. The crates kern_serve and lab_term
// do this, and have the contracts; this program hands them the system's files, sockets and streams. The
// subcommand `step` is the program lab80_step's, `asm` and `dis` are lab80's.
#![tactic(auto)]

mod closed;
mod file;
mod kernel;
mod line;
mod term;

use cli_io::command::{Command, read_command};
use cli_io::words::{read_words, show_usage};
use closed::replace_closed;
use std::process::ExitCode;

fn main(rt: HostRuntime) -> ExitCode {
    let _closed = replace_closed(&rt);
    let words = match read_words(&rt) {
        Ok(words) => words,
        Err(status) => return ExitCode::from(status.number()),
    };
    let status = match read_command(&words) {
        Some(Command::Kernel(file)) => kernel::run_kernel(&rt, file),
        Some(Command::Term(file)) => term::run_term(&rt, file),
        Some(Command::Step | Command::Asm | Command::Dis(_)) | None => show_usage(&rt),
    };
    ExitCode::from(status.number())
}
