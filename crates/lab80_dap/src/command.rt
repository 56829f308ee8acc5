//! The command line.
ghost use Rattle.std.specs.Prelude.{◌≡◌, map, string_bytes, IfErr};
ghost use Rattle.lab80_dap.specs.Command.{port_of, one_word, two_words, command_of};

use cli_io::status::Status;
use std::alloc::Global;
use std::rt::Env;
use std::{env, io};

/// What the program is to do.
#[derive(Clone, Copy, PartialEq, Eq)]
pub enum Command {
    /// Serves an editor over standard input and output.
    Streams,
    /// Serves an editor over a connection to this port.
    Port(u16),
    /// Prints the usage.
    Help,
    /// Prints the version.
    Version,
}

fn port_of(word: &str) -> Option<u16>
    ensures { result ≡ port_of word.now }
{
    match word.parse::<u16>() {
        Ok(0) => None,
        Ok(port) => Some(port),
        Err(_) => None,
    }
}

fn one_word(word: &str) -> Option<Command>
    ensures { result ≡ one_word word.now }
{
    if word == "--help" {
        return Some(Command::Help);
    }
    if word == "--version" {
        return Some(Command::Version);
    }
    None
}

fn two_words(word: &str, other: &str) -> Option<Command>
    ensures { result ≡ two_words word.now other.now }
{
    if word == "--port" {
        return Some(Command::Port(port_of(other)?));
    }
    None
}

fn command_of(words: &[String]) -> Option<Command>
    ensures { result ≡ command_of (map string_bytes words.now) }
{
    match words {
        [] => Some(Command::Streams),
        [word] => one_word(word.as_str()),
        [word, other] => two_words(word.as_str(), other.as_str()),
        _ => None,
    }
}

fn collect(rt: &(impl Env + AllocGlobal)) -> io::Result<Vec<String>> {
    Ok(env::args(rt)?.skip(1).collect(rt.alloc())?)
}

/// What the words after the program's name ask for, or `None` if the program doesn't know them, as words that
/// aren't UTF-8. Fails only if memory runs out.
pub fn read_command(rt: &(impl Env + AllocGlobal)) -> Result<Option<Command>, Status>
    ensures { IfErr result (λ status. status ≡ Status.OutOfMemory) }
{
    match collect(rt) {
        Ok(words) => Ok(command_of(&words)),
        Err(error) if error.kind() == io::ErrorKind::OutOfMemory => Err(Status::OutOfMemory),
        Err(_) => Ok(None),
    }
}
