//! The inputs of a run among the requests.
ghost use Rattle.std.specs.Prelude.{◌≡◌, IfOk};
ghost use Rattle.dap_values.specs.Distances.{address_at};
ghost use Rattle.dap_prompt.specs.Inputs as inputs;
ghost use Rattle.dap_prompt.specs.Inputs.{command_input, bytes_input};

use crate::prompt::is_typing;
use base_text::latin::to_bytes;
use base_text::sequence::Bytes;
use dap_history::input::Input;
use dap_requests::offset::SignedOffset;
use dap_requests::request::{BoardCommand, EditorCommand, EvaluateContext, RequestContent};
use dap_requests::traits::traits_of;
use dap_values::distance::address_at;
use std::alloc::{AllocError, Global};

/// The input that a command of the kernel is, if it is one.
pub fn command_input(alloc: Global, command: &BoardCommand) -> Result<Option<Input>, AllocError>
    ensures { IfOk result (λ input. input ≡ command_input command.now) }
{
    match command {
        BoardCommand::BoardType(text) => {
            let bytes = to_bytes(alloc, text.as_str())?;
            Ok(Some(Input::Typed(bytes)))
        }
        BoardCommand::BoardSwitches(value) => Ok(Some(Input::Switches(*value))),
        BoardCommand::BoardPress(vector) => Ok(Some(Input::Press(*vector))),
        BoardCommand::Attach
        | BoardCommand::Disconnect
        | BoardCommand::ConfigurationDone
        | BoardCommand::Threads
        | BoardCommand::StackTrace { .. }
        | BoardCommand::Continue
        | BoardCommand::Step { .. }
        | BoardCommand::Pause
        | BoardCommand::Source(_)
        | BoardCommand::DumpCell(_)
        | BoardCommand::DebugInfo
        | BoardCommand::InspectVariables
        | BoardCommand::BoardReset
        | BoardCommand::BoardAliases(_) => Ok(None),
    }
}

/// The input by which bytes are written at an offset from an address, as many as there are addresses for;
/// `None` if there is no such address.
pub fn bytes_input(
    alloc: Global,
    address: u16,
    offset: SignedOffset,
    bytes: &Bytes,
) -> Result<Option<Input>, AllocError>
    ensures { IfOk result (λ input. input ≡ bytes_input (address_at address offset) bytes.now) }
{
    let Some(start) = address_at(address, offset) else {
        return Ok(None);
    };
    let all = bytes.as_slice();
    let room = 65_536 - usize::from(start);
    let written = &all[..room.min(all.len())];
    let bytes = Bytes::copy_of(alloc, written)?;
    Ok(Some(Input::Write {
        address: start,
        bytes,
    }))
}

/// The request that is meant, where a watch may be a line of the prompt.
pub fn as_meant(asked: RequestContent, has_watch_commands: bool) -> RequestContent
    ensures { result ≡ inputs.as_meant has_watch_commands asked }
{
    match asked {
        RequestContent::Editor(
            EditorCommand::Evaluate {
                expression,
                context: EvaluateContext::Watch,
                format,
            },
        ) if has_watch_commands => RequestContent::Editor(EditorCommand::Evaluate {
            expression,
            context: EvaluateContext::Repl,
            format,
        }),
        other => other,
    }
}

// Whether a request is a line of the prompt that types.
fn types_at_prompt(asked: &RequestContent) -> bool
    ensures { result ≡ inputs.types_at_prompt asked.now }
{
    match asked {
        RequestContent::Editor(
            EditorCommand::Evaluate {
                expression,
                context: EvaluateContext::Repl,
                format: _,
            },
        ) => is_typing(expression.as_str()),
        _ => false,
    }
}

/// Whether a request types a line, or loads a program, which has asked for none.
pub fn ends_question(asked: &RequestContent) -> bool
    ensures { result ≡ inputs.ends_question asked.now }
{
    traits_of(asked).ends_question || types_at_prompt(asked)
}
