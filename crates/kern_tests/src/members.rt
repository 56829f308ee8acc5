//! The members of the JSON objects of a session.

use crate::fault::SessionFault;
use base_text::sequence::{Bytes, Frames};
use hex::FromHexError;
use serde_json::Value;
use std::alloc::Global;

/// The value at a key.
pub fn member<'a>(value: &'a Value, key: &'static str) -> Result<&'a Value, SessionFault> {
    value.get(key).ok_or(SessionFault::Member(key))
}

/// The text at a key.
pub fn text<'a>(value: &'a Value, key: &'static str) -> Result<&'a str, SessionFault> {
    member(value, key)?
        .as_str()
        .ok_or(SessionFault::Member(key))
}

/// The whole number at a key.
pub fn number(value: &Value, key: &'static str) -> Result<u64, SessionFault> {
    member(value, key)?
        .as_u64()
        .ok_or(SessionFault::Member(key))
}

/// The whole number at a key, which must fit into 32 bits.
pub fn small_number(value: &Value, key: &'static str) -> Result<u32, SessionFault> {
    match u32::try_from(number(value, key)?) {
        Ok(n) => Ok(n),
        Err(_) => Err(SessionFault::Member(key)),
    }
}

/// The boolean at a key.
pub fn truth(value: &Value, key: &'static str) -> Result<bool, SessionFault> {
    member(value, key)?
        .as_bool()
        .ok_or(SessionFault::Member(key))
}

/// The items of the list at a key.
pub fn list<'a>(value: &'a Value, key: &'static str) -> Result<&'a [Value], SessionFault> {
    items(value, key).ok_or(SessionFault::Member(key))
}

/// The bytes at a key, which are in hexadecimal.
pub fn bytes(alloc: Global, value: &Value, key: &'static str) -> Result<Bytes, SessionFault> {
    frame(alloc, member(value, key)?, key)
}

/// The list of frames at a key, each of which is in hexadecimal.
pub fn frames(alloc: Global, value: &Value, key: &'static str) -> Result<Frames, SessionFault> {
    let mut frames = Frames::new(alloc);
    for item in list(value, key)? {
        frames.push(frame(alloc, item, key)?)?;
    }
    Ok(frames)
}

// A frame in hexadecimal. The key is only for the fault.
fn frame(alloc: Global, item: &Value, key: &'static str) -> Result<Bytes, SessionFault> {
    let digits = item.as_str().ok_or(SessionFault::Member(key))?;
    match hex::decode(alloc, digits.as_bytes()) {
        Ok(items) => Ok(Bytes::from(items)),
        Err(FromHexError::OutOfMemory) => Err(SessionFault::OutOfMemory),
        Err(_) => Err(SessionFault::Member(key)),
    }
}

/// Whether a value is this whole number.
pub fn is_number(value: &Value, number: u64) -> bool {
    match value.as_u64() {
        Some(found) => found == number,
        None => false,
    }
}

/// Whether the value at a key is this whole number.
pub fn has_number(value: &Value, key: &str, number: u64) -> bool {
    match value.get(key) {
        Some(found) => is_number(found, number),
        None => false,
    }
}

/// Whether the value at a key is this boolean.
pub fn has_truth(value: &Value, key: &str, truth: bool) -> bool {
    match value.get(key) {
        Some(Value::Bool(found)) => *found == truth,
        _ => false,
    }
}

/// Whether the value at a key is this text.
pub fn has_text(value: &Value, key: &str, text: &str) -> bool {
    has_bytes(value, key, text.as_bytes())
}

/// Whether the value at a key is the text of these bytes.
pub fn has_bytes(value: &Value, key: &str, bytes: &[u8]) -> bool {
    match value.get(key) {
        Some(found) => is_bytes(found, bytes),
        None => false,
    }
}

fn is_bytes(found: &Value, bytes: &[u8]) -> bool {
    match found.as_str() {
        Some(text) => text.as_bytes() == bytes,
        None => false,
    }
}

/// The items of the list at a key, if there is one.
pub fn items<'a>(value: &'a Value, key: &str) -> Option<&'a [Value]> {
    let items = value.get(key)?.as_array()?;
    Some(items.as_slice())
}

/// Whether the value at a key is the list of these frames, each of which is in hexadecimal.
pub fn are_frames(
    alloc: Global,
    value: &Value,
    key: &'static str,
    frames: &Frames,
) -> Result<bool, SessionFault> {
    let Some(found) = items(value, key) else {
        return Ok(false);
    };
    if found.len() != frames.len() {
        return Ok(false);
    }
    for (item, wanted) in found.iter().zip(frames.as_slice()) {
        if frame(alloc, item, key)?.as_slice() != wanted.as_slice() {
            return Ok(false);
        }
    }
    Ok(true)
}
