//! The command that the words on the command line are.
ghost use Rattle.std.specs.Prelude.{◌≡◌, map, option_map, string_bytes};
ghost use Rattle.cli_io.specs.Command.{task_of, command_of, one_word, with_origin, two_words};

use base_text::hexadecimal::read_word;

/// A command of lab80.
#[derive(Clone, Copy, PartialEq, Eq)]
pub enum Command<'a> {
    /// Runs bytes and prints each step.
    Step,
    /// Assembles a cell and runs it.
    Asm,
    /// Lists bytes, the first of which is at this address.
    Dis(u16),
    /// Runs the kernel of the connection file of this name.
    Kernel(&'a str),
    /// Runs a cell on the kernel of the connection file of this name.
    Term(&'a str),
}

fn one_word(word: &str) -> Option<Command<'static>>
    ensures { option_map task_of result ≡ one_word word.now }
{
    if word == "step" {
        return Some(Command::Step);
    }
    if word == "asm" {
        return Some(Command::Asm);
    }
    None
}

fn with_origin(origin: &str) -> Option<Command<'static>>
    ensures { option_map task_of result ≡ with_origin origin.now }
{
    match read_word(origin.as_bytes()) {
        Some(origin) => Some(Command::Dis(origin)),
        None => None,
    }
}

fn two_words<'a>(word: &str, other: &'a str) -> Option<Command<'a>>
    ensures { option_map task_of result ≡ two_words word.now other.now }
{
    if word == "dis" {
        return with_origin(other);
    }
    if word == "kernel" {
        return Some(Command::Kernel(other));
    }
    if word == "term" {
        return Some(Command::Term(other));
    }
    None
}

/// The command that the words after the program's name are, if they are one.
pub fn read_command(words: &[String]) -> Option<Command<'_>>
    ensures { option_map task_of result ≡ command_of (map string_bytes words.now) }
{
    match words {
        [word] => one_word(word.as_str()),
        [word, other] => two_words(word.as_str(), other.as_str()),
        _ => None,
    }
}
