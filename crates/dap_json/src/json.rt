//! The JSON of messages to an editor.
ghost use Rattle.std.specs.Prelude.{◌≡◌, IfOk};
ghost use Rattle.serde_json.specs.View.{view};
ghost use Rattle.dap_json.specs.Json.{success_json, response_json, message_json};

use crate::bodies::editor_body_json;
use crate::events::editor_event_json;
use dap_answers::sending::{bare_success, refusal};
use dap_messages::message::{EditorOutcome, EditorResponse, Message, Numbering};
use serde_json::Value;
use std::alloc::{AllocError, Global};

fn success(
    alloc: Global,
    seq: u64,
    request_seq: u32,
    command: &str,
    body: Value,
) -> Result<Value, AllocError>
    ensures { IfOk result (λ v. view v ≡ success_json seq request_seq command.now (view body)) }
{
    bare_success(alloc, seq, request_seq)
        .text("command", command)
        .value("body", body)
        .finish()
}

fn response(
    alloc: Global,
    numbering: Numbering,
    seq: u64,
    response: &EditorResponse,
) -> Result<Value, AllocError>
    ensures { IfOk result (λ v. view v ≡ response_json numbering seq response.now) }
{
    let command = response.command.as_str();
    let request_seq = response.request_seq;
    match &response.outcome {
        EditorOutcome::Success(body) => {
            let body = editor_body_json(alloc, numbering, body)?;
            success(alloc, seq, request_seq, command, body)
        }
        EditorOutcome::Refused(message) => {
            refusal(alloc, seq, request_seq, command, message.as_str())
        }
    }
}

/// The JSON of a response or an event, with `seq` as its number (Debug Adapter Protocol, "Base Protocol").
/// Lines and columns count as `numbering` says, but texts for people name lines from 1.
pub fn message_json(
    alloc: Global,
    numbering: Numbering,
    seq: u64,
    message: &Message,
) -> Result<Value, AllocError>
    ensures { IfOk result (λ v. view v ≡ message_json numbering seq message.now) }
{
    match message {
        Message::Response(answer) => response(alloc, numbering, seq, answer),
        Message::Event(event) => editor_event_json(alloc, numbering, seq, event),
    }
}
