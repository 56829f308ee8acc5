//! Opening a message: from frames to JSON.
ghost use Rattle.std.specs.Prelude.{◌≡◌, ◌<◌, ◌≤◌, ◌+◌, ◌↔◌, ◌++◌, ◌∷◌, [], Some, None};
ghost use Rattle.std.specs.Prelude.{length, vec_len, IsTrue, IfOk, IfErr, IfSome, IfNone, IsSome, OnOk};
ghost use Rattle.base_text.specs.Bytes.{Bytes, Frames};
ghost use Rattle.serde_json.specs.View.{view};
ghost use Rattle.jup_wire.specs.Json.{json_of, text_at, IsHeader};
ghost use Rattle.jup_wire.specs.Wire.{delimiter, NoDelimiter, HasParts, IsSigned, AreJson, IsMessage};
ghost use Rattle.jup_wire.specs.Wire.{IsRefused, Opens};
ghost use Rattle.jup_wire.specs.Fault.{JsonFault, HeaderFault, IsRead, FirstDelimiter};
ghost use Rattle.jup_wire.specs.Signature.{signature};
ghost use Rattle.jup_wire.specs.declared.message.Header.{Header};
ghost use Rattle.jup_wire.specs.declared.message.Parts.{Parts};
ghost use Rattle.jup_wire.specs.declared.message.WireFault.{WireFault};

use crate::message::{DELIMITER, Header, Message, Parts, WireFault};
use crate::signature::is_signed;
use base_text::sequence::{Bytes, Frames};
use base_text::text::Text;
use serde_json::Value;
use std::alloc::Global;

fn is_delimiter(frame: &Bytes) -> bool
    ensures { IsTrue result ↔ (frame.now ≡ delimiter) }
{
    frame.as_slice() == DELIMITER
}

#[tactic(auto, using(crate::proofs::WireLemmas::found, crate::proofs::WireLemmas::passed))]
fn delimiter_at(frames: &[Bytes]) -> Option<usize>
    ensures none { IfNone result (NoDelimiter frames.now) }
    ensures found { IfSome result (FirstDelimiter frames.now) }
    ensures inside { IfSome result (λ at. at < length frames.now) }
{
    for (at, frame) in frames.iter().enumerate() {
        if is_delimiter(frame) {
            return Some(at);
        }
    }
    None
}

fn take_last(frames: &mut Vec<Bytes>) -> Bytes
    requires { 0 < vec_len frames.old }
    ensures items { frames.old.items ≡ frames.new.items ++ result ∷ [] }
    ensures len { vec_len frames.new + 1 ≡ vec_len frames.old }
{
    frames.pop().unwrap()
}

fn take_apart(mut frames: Vec<Bytes>, at: usize) -> (Bytes, Parts)
    requires delimiter { FirstDelimiter frames.items at }
    requires enough { at + 6 ≤ vec_len frames }
    ensures { HasParts frames.items result.0 result.1 }
{
    frames.truncate(at + 6);
    let content = take_last(&mut frames);
    let metadata = take_last(&mut frames);
    let parent_header = take_last(&mut frames);
    let header = take_last(&mut frames);
    let digits = take_last(&mut frames);
    frames.truncate(at);
    let identities = Frames::from(frames);
    let parts = Parts {
        identities,
        header,
        parent_header,
        metadata,
        content,
    };
    (digits, parts)
}

fn split(frames: Frames) -> Result<(Bytes, Parts), WireFault>
    ensures parts { IfOk result (λ split. HasParts frames split.0 split.1) }
    ensures refused { IfErr result (λ e. (key : Bytes) → IsRefused key frames e) }
{
    let frames = frames.into_vec();
    let Some(at) = delimiter_at(frames.as_slice()) else {
        return Err(WireFault::Delimiter);
    };
    if frames.len() - at < 6 {
        return Err(WireFault::Count);
    }
    Ok(take_apart(frames, at))
}

fn is_accepted(key: &[u8], digits: &Bytes, parts: &Parts) -> bool
    ensures { IsTrue result ↔ IsSigned key.now digits.now parts.now }
{
    key.is_empty() || is_signed(key, digits.as_slice(), parts)
}

fn read_json(alloc: Global, frame: &Bytes) -> Result<Value, WireFault>
    ensures value { IfOk result (λ v. json_of frame.now ≡ Some (view v)) }
    ensures fault { IfErr result (λ e. JsonFault e (json_of frame.now ≡ None)) }
{
    match Value::from_slice(alloc, frame.as_slice()) {
        Ok(value) => Ok(value),
        Err(e) if e.is_memory() => Err(WireFault::OutOfMemory),
        Err(_) => Err(WireFault::Json),
    }
}

// Checks that a frame is JSON, and drops its value.
fn check_json(alloc: Global, frame: &Bytes) -> Result<(), WireFault>
    ensures json { OnOk result (IsSome (json_of frame.now)) }
    ensures fault { IfErr result (λ e. JsonFault e (json_of frame.now ≡ None)) }
{
    match read_json(alloc, frame) {
        Ok(_) => Ok(()),
        Err(fault) => Err(fault),
    }
}

// The values of the header and of the content; the other two frames are only checked.
fn read_values(alloc: Global, parts: &Parts) -> Result<(Value, Value), WireFault>
    ensures json { IfOk result (λ _. AreJson parts.now) }
    ensures header { IfOk result (λ values. json_of parts.now.header ≡ Some (view values.0)) }
    ensures content { IfOk result (λ values. json_of parts.now.content ≡ Some (view values.1)) }
    ensures fault { IfErr result (λ e. JsonFault e (¬ AreJson parts.now)) }
{
    check_json(alloc, &parts.parent_header)?;
    check_json(alloc, &parts.metadata)?;
    let header = read_json(alloc, &parts.header)?;
    let content = read_json(alloc, &parts.content)?;
    Ok((header, content))
}

fn text_of<'a>(value: &'a Value, key: &str) -> Result<&'a str, WireFault>
    ensures text { IfOk result (λ text. text_at key.now (view value.now) ≡ Some text.now) }
    ensures fault { IfErr result
        (λ e. (e ≡ WireFault.Header) × (text_at key.now (view value.now) ≡ None)) }
{
    match value.get(key) {
        Some(found) => found.as_str().ok_or(WireFault::Header),
        None => Err(WireFault::Header),
    }
}

fn copied_text(alloc: Global, value: &Value, key: &str) -> Result<Text, WireFault>
    ensures text { IfOk result (λ text. text_at key.now (view value.now) ≡ Some text) }
    ensures fault { IfErr result (λ e. HeaderFault e (text_at key.now (view value.now) ≡ None)) }
{
    let text = text_of(value, key)?;
    match Text::copy_of(alloc, text) {
        Ok(copy) => Ok(copy),
        Err(_) => Err(WireFault::OutOfMemory),
    }
}

fn read_header(alloc: Global, value: &Value) -> Result<Header, WireFault>
    ensures header { IfOk result (IsHeader (view value.now)) }
    ensures fault { IfErr result
        (λ e. HeaderFault e ((header : Header) → ¬ IsHeader (view value.now) header)) }
{
    let msg_id = copied_text(alloc, value, "msg_id")?;
    let msg_type = copied_text(alloc, value, "msg_type")?;
    let session = copied_text(alloc, value, "session")?;
    Ok(Header {
        msg_id,
        msg_type,
        session,
    })
}

// The header and the content of parts that are signed.
fn read_signed(
    alloc: Global,
    key: &[u8],
    digits: &Bytes,
    parts: &Parts,
) -> Result<(Header, Value), WireFault>
    ensures signed { OnOk result (IsSigned key.now digits.now parts.now) }
    ensures read { IfOk result (λ read. IsRead parts.now read.0 (view read.1)) }
    ensures refused { IfErr result (λ e. (frames : Frames)
        → HasParts frames digits.now parts.now → IsRefused key.now frames e) }
{
    if !is_accepted(key, digits, parts) {
        return Err(WireFault::Signature);
    }
    let (value, content) = read_values(alloc, parts)?;
    match read_header(alloc, &value) {
        Ok(header) => Ok((header, content)),
        Err(fault) => Err(fault),
    }
}

fn open(alloc: Global, frames: Frames, key: &[u8]) -> Result<Message, WireFault>
    ensures message { IfOk result
        (λ m. IsMessage key.now frames m.parts m.header (view m.content)) }
    ensures refused { IfErr result (IsRefused key.now frames) }
{
    let (digits, parts) = split(frames)?;
    match read_signed(alloc, key, &digits, &parts) {
        Ok((header, content)) => Ok(Message {
            parts,
            header,
            content,
        }),
        Err(fault) => Err(fault),
    }
}

/// Opens a message with a key. With an empty key, the signature isn't checked. The frames are moved into the
/// message; buffers after the content are accepted and dropped. The error is the first one, in the order of
/// `WireFault`, that applies to the frames. `OutOfMemory` is only returned for frames that pass the checks of
/// delimiter, count and signature, in place of any result that could follow.
pub fn open_message(alloc: Global, frames: Frames, key: &[u8]) -> Result<Message, WireFault>
    ensures { Opens key.now frames result }
{
    open(alloc, frames, key)
}
