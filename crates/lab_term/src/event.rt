//! The messages of iopub (Jupyter messaging 5.4, "Messages on the IOPub (PUB/SUB) channel").
ghost use Rattle.std.specs.Prelude.{◌≡◌, IfOk, IfErr};
ghost use Rattle.serde_json.specs.View.{view};
ghost use Rattle.jup_wire.specs.Wire.{IsRefused};
ghost use Rattle.zmtp_wire.specs.Wire.{Bytes, Frames};
ghost use Rattle.lab_term.specs.Events.{notice_of, IsNotice, IsUnopened, text_in, is_status, is_idle};
ghost use Rattle.lab_term.specs.Events.{is_error, is_of, error_line, text_of};

use crate::fault::{TermFault, WireCause};
use base_text::sequence::{Bytes, Frames};
use base_text::text::Text;
use jup_wire::message::{Message, WireFault};
use jup_wire::opening::open_message;
use serde_json::Value;
use std::alloc::{AllocError, Global};

/// A message that was opened.
#[derive(Drop)]
pub(crate) struct Event {
    pub msg_type: Text,
    /// The header of the request that it belongs to, as it was received.
    pub parent: Bytes,
    pub content: Value,
}

/// The fault of the client for a message that can't be opened.
fn fault_of(fault: WireFault) -> TermFault
    ensures { (key : Bytes) (frames : Frames) → IsRefused key frames fault → IsUnopened key frames result }
{
    match fault {
        WireFault::OutOfMemory => TermFault::OutOfMemory,
        WireFault::Delimiter
        | WireFault::Count
        | WireFault::Signature
        | WireFault::Json
        | WireFault::Header => TermFault::Wire(WireCause::Message(fault)),
    }
}

fn event_of(message: Message) -> Event
    ensures msg_type { result.msg_type ≡ message.header.msg_type }
    ensures parent { result.parent ≡ message.parts.parent_header }
    ensures content { view result.content ≡ view message.content }
{
    let Message {
        parts,
        header,
        content,
    } = message;
    Event {
        msg_type: header.msg_type,
        parent: parts.parent_header,
        content,
    }
}

/// Opens a message under the key.
pub(crate) fn open_event(alloc: Global, frames: Frames, key: &[u8]) -> Result<Event, TermFault>
    ensures notice { IfOk result (λ event. IsNotice key.now frames (notice_of event)) }
    ensures unopened { IfErr result (IsUnopened key.now frames) }
{
    match open_message(alloc, frames, key) {
        Ok(message) => Ok(event_of(message)),
        Err(fault) => Err(fault_of(fault)),
    }
}

// The text at a key of the content, or an empty one.
fn text_at<'a>(content: &'a Value, key: &str) -> &'a str
    ensures { result.now ≡ text_in key.now (view content.now) }
{
    match content.get(key).and_then(Value::as_str) {
        Some(text) => text,
        None => "",
    }
}

fn error_line(alloc: Global, content: &Value) -> Result<Text, AllocError>
    ensures { IfOk result (λ line. line ≡ error_line (view content.now)) }
{
    let name = text_at(content, "ename");
    let value = text_at(content, "evalue");
    let line = format!(in alloc; "{name}: {value}\n")?;
    Ok(Text::from(line))
}

impl Event {
    /// Whether it is a status of the kernel.
    pub(crate) fn is_status(&self) -> bool
        ensures { result ≡ is_status (notice_of self.now) }
    {
        self.msg_type.as_str() == "status"
    }

    /// Whether it says that the kernel is done with a request.
    pub(crate) fn is_idle(&self) -> bool
        ensures { result ≡ is_idle (notice_of self.now) }
    {
        self.is_status() && text_at(&self.content, "execution_state") == "idle"
    }

    /// Whether it is an error.
    pub(crate) fn is_error(&self) -> bool
        ensures { result ≡ is_error (notice_of self.now) }
    {
        self.msg_type.as_str() == "error"
    }

    /// Whether it belongs to the request with this header.
    pub(crate) fn is_of(&self, header: &[u8]) -> bool
        ensures { result ≡ is_of header.now (notice_of self.now) }
    {
        self.parent.as_slice() == header
    }

    /// What is printed of it: the text of a stream unchanged, or the name and the value of an error in one
    /// line.
    #[tactic(auto, unfolding(crate::specs::Events::text_of))]
    pub(crate) fn text(&self, alloc: Global) -> Result<Text, AllocError>
        ensures { IfOk result (λ text. text ≡ text_of (notice_of self.now)) }
    {
        if self.msg_type.as_str() == "stream" {
            return Text::copy_of(alloc, text_at(&self.content, "text"));
        }
        if self.is_error() {
            return error_line(alloc, &self.content);
        }
        Text::copy_of(alloc, "")
    }
}
