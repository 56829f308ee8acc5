//! Messages as bytes.
ghost use Rattle.std.specs.Prelude.{◌≡◌, ◌++◌, IfOk, OnOk, string_bytes};
ghost use Rattle.serde_json.specs.Written.{compact_text};
ghost use Rattle.dap_stream.specs.Writing.{message_bytes};
ghost use Rattle.dap_json.specs.Json.{message_json};
ghost use Rattle.dap_debugger.specs.Sending.{at_start, text_of, after_message, after_messages};
ghost use Rattle.dap_debugger.specs.Sending.{sent_bytes, concat_messages};

use base_text::sequence::Sequence;
use dap_json::json::message_json;
use dap_messages::message::{Message, Numbering};
use dap_messages::numbering::FROM_1;
use dap_stream::writing::put_message;
use std::alloc::{AllocError, Global};

/// How far a conversation has come.
#[derive(Clone, Copy)]
pub struct Progress {
    /// The number of messages that were sent.
    pub sent: u64,
    /// How the editor counts lines and columns.
    pub numbering: Numbering,
}

impl Progress {
    /// Before the first message.
    pub fn start() -> Progress
        ensures { result ≡ at_start }
    {
        Progress {
            sent: 0,
            numbering: FROM_1,
        }
    }
}

// The JSON text of a message with this number.
#[tactic(auto, using(dap_json::proofs::FloatLemmas::message_has_no_float))]
fn json_text(
    alloc: Global,
    numbering: Numbering,
    number: u64,
    message: &Message,
) -> Result<String, AllocError>
    ensures { IfOk result (λ text. string_bytes text
        ≡ compact_text (message_json numbering number message.now)) }
{
    let value = message_json(alloc, numbering, number, message)?;
    value.to_string(alloc)
}

// Adds the bytes of the next message.
fn put_one(
    alloc: Global,
    from: Progress,
    message: &Message,
    out: &mut Vec<u8>,
) -> Result<Progress, AllocError>
    ensures progress { IfOk result (λ next. next ≡ after_message from message.now) }
    ensures bytes { OnOk result
        (out.new.items ≡ out.old.items ++ message_bytes (text_of from message.now)) }
{
    let Some(sent) = from.sent.checked_add(1) else {
        return Err(AllocError);
    };
    let text = json_text(alloc, from.numbering, sent, message)?;
    put_message(alloc, out, text.as_bytes())?;
    Ok(Progress {
        sent,
        numbering: from.numbering.after(message),
    })
}

// Adds the bytes of messages that come next.
fn put_messages(
    alloc: Global,
    from: Progress,
    messages: &[Message],
    out: &mut Vec<u8>,
) -> Result<Progress, AllocError>
    ensures progress { IfOk result (λ progress. progress ≡ after_messages from messages.now) }
    ensures bytes { OnOk result (out.new.items ≡ out.old.items ++ sent_bytes from messages.now) }
{
    let mut progress = from;
    let mut rest = messages;
    while let Some((message, others)) = rest.split_first() {
        progress = put_one(alloc, progress, message, out)?;
        rest = others;
    }
    Ok(progress)
}

/// Adds the bytes of the messages in lists, which come next. Fails also if a number would pass 2^64 - 1;
/// after an error the bytes of some messages may have been added.
pub fn put_all(
    alloc: Global,
    from: Progress,
    lists: &[Sequence<Message>],
    out: &mut Vec<u8>,
) -> Result<Progress, AllocError>
    ensures progress { IfOk result (λ progress. progress ≡ after_messages from (concat_messages lists.now)) }
    ensures bytes { OnOk result (out.new.items
        ≡ out.old.items ++ sent_bytes from (concat_messages lists.now)) }
{
    let mut progress = from;
    let mut rest = lists;
    while let Some((messages, others)) = rest.split_first() {
        progress = put_messages(alloc, progress, messages.as_slice(), out)?;
        rest = others;
    }
    Ok(progress)
}
