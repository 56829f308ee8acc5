// The kernel as a program over standard input and output, for a web page that runs it as a module: one
// thread, no clock, no sockets. Its input and output are the two directions of one ZMTP stream. Each message
// of the input is an item: a connection joins, leaves or subscribes, a Jupyter message arrives, or the kernel
// runs for a while. What is written is a function of what was read: for each item the posts that it makes,
// and an answer. `serve` has the contract that says so; this file calls it with the system's streams.
#![tactic(auto)]

pub mod answer;
mod end;
pub mod items;
pub mod laws;
mod outputs;
mod performing;
pub mod serve;

use base_streams::std_io::{StdInlet, StdOutlet};
use end::tell_end;
use serve::serve;
use std::io;
use std::process::ExitCode;

fn main(rt: HostRuntime) -> ExitCode {
    let mut input = StdInlet::new(rt.reader());
    let mut output = StdOutlet::new(io::writer(&rt));
    let end = serve(rt.alloc(), &mut input, &mut output);
    ExitCode::from(tell_end(&rt, end).number())
}
