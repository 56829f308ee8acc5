//! Responses that refuse a request.
ghost use Rattle.std.specs.Prelude.{◌≡◌, IfOk};
ghost use Rattle.dap_answers.specs.Refusals.{response_to};

use crate::answer::{Outcome, Response};
use base_text::text::Text;
use dap_talk::fault::DapFault;
use std::alloc::{AllocError, Global};

/// The response that refuses a request. An unknown number is 0, and an unknown command is empty.
pub fn refusal_of(alloc: Global, fault: &DapFault<'_>) -> Result<Response, AllocError>
    ensures { IfOk result (λ response. response ≡ response_to fault.now) }
{
    let (request_seq, command) = match fault {
        DapFault::OutOfMemory | DapFault::NotRequest => (0, ""),
        DapFault::Command { seq, command } | DapFault::Arguments { seq, command } => {
            (*seq, *command)
        }
    };
    let command = Text::copy_of(alloc, command)?;
    let message = Text::copy_of(alloc, fault.message())?;
    Ok(Response {
        request_seq,
        command,
        outcome: Outcome::Refused(message),
    })
}
