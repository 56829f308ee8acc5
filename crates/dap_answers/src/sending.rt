//! The JSON of responses and events.
ghost use Rattle.std.specs.Prelude.{◌≡◌, true, IfOk};
ghost use Rattle.serde_json.specs.View.{view};
ghost use Rattle.dap_answers.specs.Object.{HasMembers};
ghost use Rattle.dap_answers.specs.Json.{members_from, stopped_json, continued_json, bare_event};
ghost use Rattle.dap_answers.specs.Json.{event_with_body, bare_response, success_json};
ghost use Rattle.dap_answers.specs.Json.{refusal_json, response_json, event_json};

use crate::answer::{Body, Event, Outcome, Response, StopReason};
use crate::bodies::body_json;
use crate::object::Object;
use serde_json::Value;
use std::alloc::{AllocError, Global};

// The members of every response, without its command and its body or message.
fn bare_response(alloc: Global, seq: u64, request_seq: u32, is_success: bool) -> Object
    ensures { HasMembers result (members_from (bare_response seq request_seq is_success)) }
{
    Object::new(alloc)
        .number("seq", seq)
        .text("type", "response")
        .number("request_seq", u64::from(request_seq))
        .flag("success", is_success)
}

/// The members of every response that grants its request, without its command and its body.
pub fn bare_success(alloc: Global, seq: u64, request_seq: u32) -> Object
    ensures { HasMembers result (members_from (bare_response seq request_seq true)) }
{
    bare_response(alloc, seq, request_seq, true)
}

fn success(
    alloc: Global,
    seq: u64,
    request_seq: u32,
    command: &str,
    body: &Body,
) -> Result<Value, AllocError>
    ensures { IfOk result (λ v. view v ≡ success_json seq request_seq command.now body.now) }
{
    let body = body_json(alloc, body)?;
    bare_success(alloc, seq, request_seq)
        .text("command", command)
        .value("body", body)
        .finish()
}

/// The JSON of a response that refuses its request with a message.
pub fn refusal(
    alloc: Global,
    seq: u64,
    request_seq: u32,
    command: &str,
    message: &str,
) -> Result<Value, AllocError>
    ensures { IfOk result (λ v. view v ≡ refusal_json seq request_seq command.now message.now) }
{
    bare_response(alloc, seq, request_seq, false)
        .text("command", command)
        .text("message", message)
        .finish()
}

/// The JSON of a response, with `seq` as its own number (Debug Adapter Protocol, "Base Protocol": Response).
pub fn response(alloc: Global, seq: u64, response: &Response) -> Result<Value, AllocError>
    ensures { IfOk result (λ v. view v ≡ response_json seq response.now) }
{
    let command = response.command.as_str();
    match &response.outcome {
        Outcome::Success(body) => success(alloc, seq, response.request_seq, command, body),
        Outcome::Refused(message) => {
            refusal(alloc, seq, response.request_seq, command, message.as_str())
        }
    }
}

fn stopped_body(alloc: Global, reason: StopReason) -> Result<Value, AllocError>
    ensures { IfOk result (λ v. view v ≡ stopped_json reason) }
{
    Object::new(alloc)
        .text("reason", reason.as_str())
        .number("threadId", 1)
        .flag("allThreadsStopped", true)
        .finish()
}

fn continued_body(alloc: Global) -> Result<Value, AllocError>
    ensures { IfOk result (λ v. view v ≡ continued_json) }
{
    Object::new(alloc)
        .number("threadId", 1)
        .flag("allThreadsContinued", true)
        .finish()
}

/// The members of every event, without its body.
pub fn bare_event(alloc: Global, seq: u64, name: &str) -> Object
    ensures { HasMembers result (members_from (bare_event seq name.now)) }
{
    Object::new(alloc)
        .number("seq", seq)
        .text("type", "event")
        .text("event", name)
}

/// The JSON of an event with this name and body.
pub fn event_with_body(
    alloc: Global,
    seq: u64,
    name: &str,
    body: Value,
) -> Result<Value, AllocError>
    ensures { IfOk result (λ v. view v ≡ event_with_body seq name.now (view body)) }
{
    bare_event(alloc, seq, name).value("body", body).finish()
}

/// The JSON of an event, with `seq` as its number (Debug Adapter Protocol, "Events").
pub fn event(alloc: Global, seq: u64, event: Event) -> Result<Value, AllocError>
    ensures { IfOk result (λ v. view v ≡ event_json seq event) }
{
    match event {
        Event::Initialized => bare_event(alloc, seq, "initialized").finish(),
        Event::Stopped(reason) => event_with_body(
            alloc,
            seq,
            "stopped",
            stopped_body(alloc, reason)?,
        ),
        Event::Continued => event_with_body(alloc, seq, "continued", continued_body(alloc)?),
    }
}
