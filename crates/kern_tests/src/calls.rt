//! The calls of a session.

use crate::fault::SessionFault;
use crate::members::{bytes, frames, member, number, small_number, text, truth};
use base_text::boxed::Boxed;
use jup_wire::channel::Channel;
use jup_wire::message::{Message, WireFault};
use kern_core::call::{Arrival, Call, Subscription};
use kern_request::reading::request_of;
use kern_test_kit::messages;
use serde_json::Value;
use std::alloc::Global;

/// The call of a line.
pub fn call_of(alloc: Global, call: &Value) -> Result<Call, SessionFault> {
    match text(call, "kind")? {
        "Join" => join(alloc, call),
        "Leave" => leave(call),
        "Subscribe" => subscribe(alloc, call),
        "Arrive" => arrive(alloc, call),
        "Slice" => slice(call),
        "Fetch" => fetch(call),
        _ => Err(SessionFault::Member("kind")),
    }
}

fn channel_of(call: &Value) -> Result<Channel, SessionFault> {
    match text(call, "channel")? {
        "shell" => Ok(Channel::Shell),
        "control" => Ok(Channel::Control),
        "stdin" => Ok(Channel::Stdin),
        "iopub" => Ok(Channel::Iopub),
        _ => Err(SessionFault::Member("channel")),
    }
}

fn join(alloc: Global, call: &Value) -> Result<Call, SessionFault> {
    let channel = channel_of(call)?;
    let identity = Boxed::new(alloc, bytes(alloc, call, "identity")?)?;
    Ok(Call::Join { channel, identity })
}

fn leave(call: &Value) -> Result<Call, SessionFault> {
    let connection = small_number(call, "connection")?;
    Ok(Call::Leave { connection })
}

fn subscribe(alloc: Global, call: &Value) -> Result<Call, SessionFault> {
    let connection = small_number(call, "connection")?;
    let wants = truth(call, "on")?;
    let unix_seconds = number(call, "moment")?;
    let prefix = bytes(alloc, call, "prefix")?;
    let subscription = Subscription {
        wants,
        prefix,
        unix_seconds,
    };
    Ok(Call::Subscribe {
        connection,
        subscription: Boxed::new(alloc, subscription)?,
    })
}

fn slice(call: &Value) -> Result<Call, SessionFault> {
    let unix_seconds = number(call, "moment")?;
    Ok(Call::Slice { unix_seconds })
}

fn fetch(call: &Value) -> Result<Call, SessionFault> {
    let connection = small_number(call, "connection")?;
    let from = number(call, "from")?;
    Ok(Call::Fetch { connection, from })
}

// The message is opened and read as if it had come over a wire.
fn arrive(alloc: Global, call: &Value) -> Result<Call, SessionFault> {
    let connection = small_number(call, "connection")?;
    let unix_seconds = number(call, "moment")?;
    let channel = channel_of(call)?;
    let message = message_of(alloc, call)?;
    let request = request_of(alloc, channel, message)?;
    let arrival = Boxed::new(
        alloc,
        Arrival {
            request,
            unix_seconds,
        },
    )?;
    Ok(Call::Arrive {
        connection,
        arrival,
    })
}

// The message of a line, which isn't signed.
fn message_of(alloc: Global, call: &Value) -> Result<Message, SessionFault> {
    let header = text(call, "header")?.as_bytes();
    let content = member(call, "content")?.to_vec(alloc)?;
    let identities = frames(alloc, call, "identities")?;
    match messages::message_of(alloc, identities, header, content.as_slice()) {
        Ok(message) => Ok(message),
        Err(WireFault::OutOfMemory) => Err(SessionFault::OutOfMemory),
        Err(fault) => Err(SessionFault::Wire(fault)),
    }
}
