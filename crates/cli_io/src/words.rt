//! The words on the command line, and the usage.
ghost use Rattle.std.specs.Prelude.{◌≡◌, ◌⊎◌, IfErr};

use crate::status::Status;
use std::rt::Env;
use std::{env, io};

/// What standard error says if a program doesn't know the words.
const USAGE: &str = "usage: lab80 step | asm | dis ORIGIN | kernel FILE | term FILE";

/// The words after the program's name. If they aren't UTF-8, the usage is printed. The error is the status
/// with which to exit.
pub fn read_words(rt: &(impl Env + AllocGlobal + Eprint)) -> Result<Vec<String>, Status>
    ensures { IfErr result (λ status. (status ≡ Status.OutOfMemory) ⊎ (status ≡ Status.Usage)) }
{
    match collect(rt) {
        Ok(words) => Ok(words),
        Err(error) if error.kind() == io::ErrorKind::OutOfMemory => Err(Status::OutOfMemory),
        Err(_) => Err(show_usage(rt)),
    }
}

fn collect(rt: &(impl Env + AllocGlobal)) -> io::Result<Vec<String>> {
    Ok(env::args(rt)?.skip(1).collect(rt.alloc())?)
}

/// Prints the usage to standard error. A failed write is ignored: the status says it too.
pub fn show_usage(rt: &impl Eprint) -> Status
    ensures { result ≡ Status.Usage }
{
    let _ = rt.eprintln(USAGE);
    Status::Usage
}
