//! The command line.
ghost use Rattle.std.specs.Prelude.{◌≡◌, map, string_bytes, IfErr};
ghost use Rattle.lab80_hex.specs.Command.{one_word, command_of};

use cli_hex::hex::HexForm;
use cli_io::status::Status;
use std::alloc::Global;
use std::rt::Env;
use std::{env, io};

/// What the program is to do.
#[derive(Clone, Copy, PartialEq, Eq)]
pub enum Command {
    /// Writes the bytes of a cell in this form.
    Write(HexForm),
    /// Writes the listing of Intel HEX.
    ListFile,
    /// Prints the usage.
    Help,
    /// Prints the version.
    Version,
}

fn one_word(word: &str) -> Option<Command>
    ensures { result ≡ one_word word.now }
{
    match word {
        "--binary" => Some(Command::Write(HexForm::Binary)),
        "--com" => Some(Command::Write(HexForm::Com)),
        "--list" => Some(Command::ListFile),
        "--help" => Some(Command::Help),
        "--version" => Some(Command::Version),
        _ => None,
    }
}

fn command_of(words: &[String]) -> Option<Command>
    ensures { result ≡ command_of (map string_bytes words.now) }
{
    match words {
        [] => Some(Command::Write(HexForm::Intel)),
        [word] => one_word(word.as_str()),
        _ => None,
    }
}

fn collect(rt: &(impl Env + AllocGlobal)) -> io::Result<Vec<String>> {
    Ok(env::args(rt)?.skip(1).collect(rt.alloc())?)
}

/// What the words after the program's name ask for, or `None` if the program doesn't know them, as words that
/// aren't UTF-8. Fails only if memory runs out.
pub fn read_command(rt: &(impl Env + AllocGlobal)) -> Result<Option<Command>, Status>
    ensures { IfErr result (λ status. status ≡ Status.OutOfMemory) }
{
    match collect(rt) {
        Ok(words) => Ok(command_of(&words)),
        Err(error) if error.kind() == io::ErrorKind::OutOfMemory => Err(Status::OutOfMemory),
        Err(_) => Ok(None),
    }
}
