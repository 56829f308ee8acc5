//! Lines of the debugger's prompt.
ghost use Rattle.std.specs.Prelude.{◌≡◌, ◌++◌, IfOk, option_map, is_some, codes};
ghost use Rattle.dap_prompt.specs.Prompt.{behind, byte_spelled, byte_command, prompt_command};

use base_text::text::Text;
use dap_requests::request::BoardCommand;
use lab_shown::place::Place;
use lab_views::value::value_of;
use std::alloc::{AllocError, Global};

/// What a line of the prompt asks for.
#[derive(Drop)]
pub enum PromptCommand {
    Board(BoardCommand),
    /// The word of a command whose number from 0 to 255 is missing.
    MissingByte,
    /// The value of the line as an expression.
    Evaluate,
}

// What stands behind this beginning of a text, if the text begins so.
fn behind<'a>(beginning: &str, text: &'a str) -> Option<&'a str>
    ensures { option_map (λ rest. rest.now) result ≡ behind beginning.now text.now }
{
    match text.strip_prefix(beginning) {
        Some(rest) => Some(rest),
        None => None,
    }
}

/// Whether a line of the prompt types.
pub(crate) fn is_typing(line: &str) -> bool
    ensures { result ≡ is_some (behind (codes "type ") line.now) }
{
    behind("type ", line).is_some()
}

fn byte_spelled(text: &str) -> Option<u8>
    ensures { result ≡ byte_spelled text.now }
{
    match value_of(Place::A, text.trim()) {
        Ok(value) => Some(value as u8),
        Err(_) => None,
    }
}

fn switches_command(number: &str) -> PromptCommand
    ensures { result ≡ byte_command (λ value. BoardCommand.BoardSwitches value) (byte_spelled number.now) }
{
    match byte_spelled(number) {
        Some(value) => PromptCommand::Board(BoardCommand::BoardSwitches(value)),
        None => PromptCommand::MissingByte,
    }
}

fn press_command(number: &str) -> PromptCommand
    ensures { result ≡ byte_command (λ vector. BoardCommand.BoardPress vector) (byte_spelled number.now) }
{
    match byte_spelled(number) {
        Some(vector) => PromptCommand::Board(BoardCommand::BoardPress(vector)),
        None => PromptCommand::MissingByte,
    }
}

fn type_command(alloc: Global, line: &str) -> Result<PromptCommand, AllocError>
    ensures { IfOk result (λ command. command
        ≡ PromptCommand.Board (BoardCommand.BoardType (line.now ++ codes "\n"))) }
{
    let mut text = String::new(alloc);
    text.push_str(line)?;
    text.push_str("\n")?;
    Ok(PromptCommand::Board(BoardCommand::BoardType(Text::from(text))))
}

/// What a line of the prompt asks for: `switches N` or `press N`, with a number from 0 to 255 as the
/// assembler reads it; `type TEXT`, which types the text and a line feed; or else the value of an expression.
pub fn prompt_command(alloc: Global, text: &str) -> Result<PromptCommand, AllocError>
    ensures { IfOk result (λ command. command ≡ prompt_command text.now) }
{
    if let Some(number) = behind("switches ", text) {
        return Ok(switches_command(number));
    }
    if let Some(number) = behind("press ", text) {
        return Ok(press_command(number));
    }
    match behind("type ", text) {
        Some(line) => type_command(alloc, line),
        None => Ok(PromptCommand::Evaluate),
    }
}
