//! Calls as plain data.

use crate::messages::message_of;
use base_text::boxed::Boxed;
use base_text::sequence::{Bytes, Frames};
use base_text::text::Text;
use dap_talk::command::{DapCommand, DapRequest};
use jup_wire::channel::Channel;
use kern_core::call::{Arrival, Call, Subscription};
use kern_request::reading::request_of;
use kern_request::request::{ExecuteRequest, Request, RequestBody};
use std::alloc::{AllocError, Global};

/// A call without its moment.
#[derive(Clone, Copy)]
pub enum Action {
    /// A connection without an identity joins.
    Join(Channel),
    /// A connection with an identity joins.
    JoinAs(Channel, &'static str),
    Leave(u32),
    /// A connection subscribes to all posts.
    Subscribe(u32),
    /// A connection sends a request.
    Ask(u32, Question),
    /// A message comes on a connection of this channel: its type, and its content as JSON in which `'`
    /// stands for `"`.
    Send(u32, Channel, &'static str, &'static str),
    Slice,
    Fetch(u32, u64),
}

/// A request, as plain data.
#[derive(Clone, Copy)]
pub enum Question {
    KernelInfo,
    Execute(&'static str),
    Interrupt,
    Shutdown,
    Switches(u8),
    Variables(u32),
}

/// The call of an action at this moment. What a `Send` sends must be a valid message, so this only fails if
/// memory runs out.
pub fn call_of(alloc: Global, action: Action, unix_seconds: u64) -> Result<Call, AllocError> {
    match action {
        Action::Join(channel) => join_call(alloc, channel, ""),
        Action::JoinAs(channel, identity) => join_call(alloc, channel, identity),
        Action::Leave(connection) => Ok(Call::Leave { connection }),
        Action::Subscribe(connection) => subscribe_call(alloc, connection, unix_seconds),
        Action::Ask(connection, question) => {
            let request = request_for(alloc, question)?;
            arrive_call(alloc, connection, request, unix_seconds)
        }
        Action::Send(connection, channel, kind, content) => {
            let request = request_sent(alloc, channel, "m-1", kind, content)?;
            arrive_call(alloc, connection, request, unix_seconds)
        }
        Action::Slice => Ok(Call::Slice { unix_seconds }),
        Action::Fetch(connection, from) => Ok(Call::Fetch { connection, from }),
    }
}

fn join_call(alloc: Global, channel: Channel, identity: &str) -> Result<Call, AllocError> {
    let identity = Boxed::new(alloc, Bytes::copy_of(alloc, identity.as_bytes())?)?;
    Ok(Call::Join { channel, identity })
}

fn subscribe_call(alloc: Global, connection: u32, unix_seconds: u64) -> Result<Call, AllocError> {
    let subscription = Subscription {
        wants: true,
        prefix: Bytes::new(alloc),
        unix_seconds,
    };
    let subscription = Boxed::new(alloc, subscription)?;
    Ok(Call::Subscribe {
        connection,
        subscription,
    })
}

/// The call of a request that comes on a connection at this moment.
pub fn arrive_call(
    alloc: Global,
    connection: u32,
    request: Request,
    unix_seconds: u64,
) -> Result<Call, AllocError> {
    let arrival = Boxed::new(
        alloc,
        Arrival {
            request,
            unix_seconds,
        },
    )?;
    Ok(Call::Arrive {
        connection,
        arrival,
    })
}

fn request_for(alloc: Global, question: Question) -> Result<Request, AllocError> {
    let header = Bytes::copy_of(alloc, b"{}")?;
    Ok(Request {
        body: body_of(alloc, question)?,
        identities: Frames::new(alloc),
        header,
    })
}

/// The request of a message with this number and type, and with its content as JSON in which `'` stands for
/// `"`: it is opened and read as if it had come over a wire.
pub fn request_sent(
    alloc: Global,
    channel: Channel,
    id: &str,
    kind: &str,
    content: &str,
) -> Result<Request, AllocError> {
    let header = format!(in alloc;
        "{{\"msg_id\":\"{id}\",\"msg_type\":\"{kind}\",\"session\":\"anna\"}}"
    )?;
    let content = content.replace(alloc, '\'', "\"")?;
    let mut identities = Frames::new(alloc);
    identities.push(Bytes::copy_of(alloc, b"anna")?)?;
    match message_of(alloc, identities, header.as_bytes(), content.as_bytes()) {
        Ok(message) => request_of(alloc, channel, message),
        Err(_) => Err(AllocError),
    }
}

fn body_of(alloc: Global, question: Question) -> Result<RequestBody, AllocError> {
    match question {
        Question::KernelInfo => Ok(RequestBody::KernelInfo),
        Question::Execute(code) => execute(alloc, code),
        Question::Interrupt => Ok(RequestBody::Interrupt),
        Question::Shutdown => Ok(RequestBody::Shutdown { restarts: false }),
        Question::Switches(value) => Ok(debug(DapCommand::BoardSwitches { value })),
        Question::Variables(reference) => Ok(debug(variables(reference))),
    }
}

fn execute(alloc: Global, code: &str) -> Result<RequestBody, AllocError> {
    let code = Text::copy_of(alloc, code)?;
    Ok(RequestBody::Execute(ExecuteRequest {
        code,
        is_silent: false,
        stores_history: true,
        allows_stdin: true,
    }))
}

fn variables(reference: u32) -> DapCommand {
    DapCommand::Variables {
        reference,
        start: 0,
        count: 0,
    }
}

fn debug(command: DapCommand) -> RequestBody {
    RequestBody::Debug(DapRequest { seq: 1, command })
}

/// Whether a call is the one of this action at this moment. A Join, a Leave and a Fetch have no moment.
/// Returns false for `JoinAs` and `Send`, which aren't compared.
pub fn is_call(call: &Call, action: Action, unix_seconds: u64) -> bool {
    match (call, action) {
        (Call::Join { channel, .. }, Action::Join(wanted)) => *channel == wanted,
        (Call::Leave { connection }, Action::Leave(wanted)) => *connection == wanted,
        (Call::Subscribe { .. }, Action::Subscribe(wanted)) => is_subscribe(
            call,
            wanted,
            unix_seconds,
        ),
        (Call::Arrive { .. }, Action::Ask(wanted, question)) => {
            is_arrive(call, wanted, question, unix_seconds)
        }
        (Call::Slice { unix_seconds: made }, Action::Slice) => *made == unix_seconds,
        (Call::Fetch { connection, from }, Action::Fetch(wanted, first)) => {
            *connection == wanted && *from == first
        }
        _ => false,
    }
}

fn is_subscribe(call: &Call, wanted: u32, unix_seconds: u64) -> bool {
    match call {
        Call::Subscribe {
            connection,
            subscription,
        } => {
            let it = subscription.get();
            let is_to_all = it.wants && it.prefix.len() == 0;
            is_to_all && it.unix_seconds == unix_seconds && *connection == wanted
        }
        _ => false,
    }
}

fn is_arrive(call: &Call, wanted: u32, question: Question, unix_seconds: u64) -> bool {
    match call {
        Call::Arrive {
            connection,
            arrival,
        } => {
            let it = arrival.get();
            let is_asked = is_question(&it.request.body, question);
            is_asked && it.unix_seconds == unix_seconds && *connection == wanted
        }
        _ => false,
    }
}

fn is_question(body: &RequestBody, question: Question) -> bool {
    match (body, question) {
        (RequestBody::KernelInfo, Question::KernelInfo) => true,
        (RequestBody::Execute(execute), Question::Execute(code)) => execute.code.as_str() == code,
        (RequestBody::Interrupt, Question::Interrupt) => true,
        (RequestBody::Shutdown { restarts }, Question::Shutdown) => !*restarts,
        (RequestBody::Debug(request), _) => is_command(&request.command, question),
        _ => false,
    }
}

fn is_command(command: &DapCommand, question: Question) -> bool {
    match (command, question) {
        (DapCommand::BoardSwitches { value }, Question::Switches(wanted)) => *value == wanted,
        (DapCommand::Variables { reference, .. }, Question::Variables(wanted)) => {
            *reference == wanted
        }
        _ => false,
    }
}
