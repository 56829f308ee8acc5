//! Reads messages as requests.
ghost use Rattle.std.specs.Prelude.{◌≡◌, IfOk};
ghost use Rattle.serde_json.specs.View.{view};
ghost use Rattle.dap_talk.specs.Reading.{reading};
ghost use Rattle.kern_request.specs.declared.request.NeedyRequest.{NeedyRequest};
ghost use Rattle.kern_request.specs.Requests.{body_or_bad, execute_body, is_complete_body, complete_body};
ghost use Rattle.kern_request.specs.Requests.{comm_open_body, shutdown_body, input_reply_body, debug_body};
ghost use Rattle.kern_request.specs.Requests.{body_by_type, body_of, request_of};

use crate::content::{bool_at, whole_at};
use crate::message_type::MessageType;
use crate::request::{ExecuteRequest, NeedyRequest, Request, RequestBody};
use base_text::latin::to_bytes;
use base_text::text::Text;
use dap_answers::refusal::refusal_of;
use dap_talk::fault::DapFault;
use dap_talk::members::text_at;
use dap_talk::reading::read_request;
use jup_wire::channel::Channel;
use jup_wire::message::{Message, Parts};
use serde_json::Value;
use std::alloc::{AllocError, Global};

fn execute(alloc: Global, content: &Value) -> Result<RequestBody, AllocError>
    ensures { IfOk result (λ body. body ≡ body_or_bad NeedyRequest.Execute
        (execute_body (view content.now))) }
{
    let Some(code) = text_at(content, "code") else {
        return Ok(RequestBody::BadContent(NeedyRequest::Execute));
    };
    let Some(silent) = bool_at(content, "silent") else {
        return Ok(RequestBody::BadContent(NeedyRequest::Execute));
    };
    let Some(store_history) = bool_at(content, "store_history") else {
        return Ok(RequestBody::BadContent(NeedyRequest::Execute));
    };
    let Some(allow_stdin) = bool_at(content, "allow_stdin") else {
        return Ok(RequestBody::BadContent(NeedyRequest::Execute));
    };
    let code = Text::copy_of(alloc, code)?;
    Ok(RequestBody::Execute(ExecuteRequest {
        code,
        is_silent: silent.unwrap_or(false),
        stores_history: store_history.unwrap_or(true),
        allows_stdin: allow_stdin.unwrap_or(true),
    }))
}

fn is_complete(alloc: Global, content: &Value) -> Result<RequestBody, AllocError>
    ensures { IfOk result
        (λ body. body ≡ body_or_bad NeedyRequest.IsComplete (is_complete_body (view content.now))) }
{
    let Some(code) = text_at(content, "code") else {
        return Ok(RequestBody::BadContent(NeedyRequest::IsComplete));
    };
    let code = Text::copy_of(alloc, code)?;
    Ok(RequestBody::IsComplete { code })
}

fn complete(content: &Value) -> RequestBody
    ensures { result ≡ body_or_bad NeedyRequest.Complete (complete_body (view content.now)) }
{
    match whole_at(content, "cursor_pos") {
        Some(cursor_pos) => RequestBody::Complete { cursor_pos },
        None => RequestBody::BadContent(NeedyRequest::Complete),
    }
}

fn comm_open(alloc: Global, content: &Value) -> Result<RequestBody, AllocError>
    ensures { IfOk result
        (λ body. body ≡ body_or_bad NeedyRequest.CommOpen (comm_open_body (view content.now))) }
{
    let Some(comm_id) = text_at(content, "comm_id") else {
        return Ok(RequestBody::BadContent(NeedyRequest::CommOpen));
    };
    let comm_id = Text::copy_of(alloc, comm_id)?;
    Ok(RequestBody::CommOpen { comm_id })
}

fn shutdown(content: &Value) -> RequestBody
    ensures { result ≡ body_or_bad NeedyRequest.Shutdown (shutdown_body (view content.now)) }
{
    match bool_at(content, "restart") {
        Some(restart) => RequestBody::Shutdown {
            restarts: restart.unwrap_or(false),
        },
        None => RequestBody::BadContent(NeedyRequest::Shutdown),
    }
}

fn input_reply(alloc: Global, content: &Value) -> Result<RequestBody, AllocError>
    ensures { IfOk result
        (λ body. body ≡ body_or_bad NeedyRequest.InputReply (input_reply_body (view content.now))) }
{
    let Some(value) = text_at(content, "value") else {
        return Ok(RequestBody::BadContent(NeedyRequest::InputReply));
    };
    let mut typed = to_bytes(alloc, value)?;
    typed.push(b'\n')?;
    Ok(RequestBody::InputReply { typed })
}

#[tactic(auto, using(crate::proofs::DebugLemmas::bad_debug))]
fn debug(alloc: Global, content: &Value) -> Result<RequestBody, AllocError>
    ensures { IfOk result (λ body. body ≡ debug_body (reading (view content.now))) }
{
    match read_request(alloc, content) {
        Ok(request) => Ok(RequestBody::Debug(request)),
        Err(DapFault::OutOfMemory) => Err(AllocError),
        Err(fault) => {
            let response = refusal_of(alloc, &fault)?;
            Ok(RequestBody::BadDebug(response))
        }
    }
}

fn body_by_type(
    alloc: Global,
    message_type: MessageType,
    content: &Value,
) -> Result<RequestBody, AllocError>
    ensures { IfOk result (λ body. body ≡ body_by_type message_type (view content.now)) }
{
    match message_type {
        MessageType::KernelInfo => Ok(RequestBody::KernelInfo),
        MessageType::Execute => execute(alloc, content),
        MessageType::IsComplete => is_complete(alloc, content),
        MessageType::Complete => Ok(complete(content)),
        MessageType::Inspect => Ok(RequestBody::Inspect),
        MessageType::History => Ok(RequestBody::History),
        MessageType::CommInfo => Ok(RequestBody::CommInfo),
        MessageType::CommOpen => comm_open(alloc, content),
        MessageType::Shutdown => Ok(shutdown(content)),
        MessageType::Interrupt => Ok(RequestBody::Interrupt),
        MessageType::Debug => debug(alloc, content),
        MessageType::InputReply => input_reply(alloc, content),
    }
}

/// What a message on this channel asks for (Jupyter messaging 5.4, "Messages on the shell channel" and the
/// sections that follow it). Members that the kernel doesn't use are ignored. The content must be an object
/// if the kernel uses any of its members.
#[tactic(auto, unfolding(crate::specs::Requests::body_of))]
pub fn body_of(
    alloc: Global,
    channel: Channel,
    message: &Message,
) -> Result<RequestBody, AllocError>
    ensures { IfOk result
        (λ body. body ≡ body_of channel message.now.header.msg_type (view message.now.content)) }
{
    match MessageType::from_name(channel, message.header.msg_type.as_str()) {
        Some(message_type) => body_by_type(alloc, message_type, &message.content),
        None => Ok(RequestBody::Unknown),
    }
}

/// Reads a message on this channel as a request. Its identities and its header frame are moved, not copied.
pub fn request_of(alloc: Global, channel: Channel, message: Message) -> Result<Request, AllocError>
    ensures { IfOk result (λ request. request ≡ request_of channel message) }
{
    let body = body_of(alloc, channel, &message)?;
    let Parts {
        identities,
        header,
        ..
    } = message.parts;
    Ok(Request {
        body,
        identities,
        header,
    })
}
