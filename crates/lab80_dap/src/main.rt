// The debugger for editors (Debug Adapter Protocol): `lab80-dap` serves over standard input and output,
// `lab80-dap --port N` over the first connection to this port of 127.0.0.1. What it answers is in crates with
// contracts of their own (dap_session, dap_record, dap_debugger, dap_serve), which it calls with the system's
// streams and sockets. Standard output carries nothing but the protocol, or with a port the line `listening`;
// `--help` and `--version` print there.
#![tactic(auto)]

mod about;
mod command;
mod end;
mod port;

use about::{HELP, VERSION, show_text, show_usage};
use base_streams::std_io::StdInlet;
use cli_io::status::Status;
use command::{Command, read_command};
use dap_serve::server::{Host, serve};
use end::tell_end;
use port::serve_port;
use std::io::{Stdin, Stdout};
use std::process::ExitCode;

// Serves over standard input and output.
fn serve_streams<R: Host + Eprint + AllocGlobal>(rt: &R, input: Stdin, output: Stdout) -> Status {
    tell_end(rt, serve(rt, rt.alloc(), StdInlet::new(input), output))
}

fn main(rt: HostRuntime) -> ExitCode {
    let status = match read_command(&rt) {
        Ok(Some(Command::Streams)) => serve_streams(&rt, rt.stdin(), rt.stdout()),
        Ok(Some(Command::Port(port))) => serve_port(&rt, port),
        Ok(Some(Command::Help)) => show_text(&rt, HELP),
        Ok(Some(Command::Version)) => show_text(&rt, VERSION),
        Ok(None) => show_usage(&rt),
        Err(status) => status,
    };
    ExitCode::from(status.number())
}
