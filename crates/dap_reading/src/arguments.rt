//! The arguments of a request, one function for each type. Each names an argument that is bad.
ghost use Rattle.std.specs.Prelude.{◌≡◌, ◌≤◌, IfOk, IfSome, [], Some, None, length, option_map, ok_or, codes};
ghost use Rattle.serde_json.specs.Find.{as_str, as_bool};
ghost use Rattle.serde_json.specs.View.{view};
ghost use Rattle.lab_shown.specs.declared.step.Granularity.TheVariants.{Line};
ghost use Rattle.dap_talk.specs.Argument.{argument_at, text_at, whole_between};
ghost use Rattle.dap_reading.specs.Answer.{Answers, result_map};
ghost use Rattle.dap_reading.specs.Argument.{required_value, value_or, IsBackWithin};
ghost use Rattle.dap_reading.specs.Argument.{byte, word, some_word, any_number};
ghost use Rattle.dap_reading.specs.Argument.{memory_reference, shift_within, shift, offset};
ghost use Rattle.dap_reading.specs.Argument.{granularity, base64};
ghost use Rattle.dap_messages.specs.Base64.{bytes_of};

use crate::fault::ArgumentFault;
use base_text::sequence::Bytes;
use base64::DecodeAllocError;
use base64::engine::general_purpose::STANDARD;
use dap_requests::offset::SignedOffset;
use dap_talk::arguments::{self, address_of, argument_at, whole_between};
use dap_talk::members;
use lab_shown::step::Granularity;
use serde_json::Value;
use std::alloc::{AllocError, Global};

/// The value at a key, if there is one.
pub fn optional<'a>(
    request: &'a Value,
    key: &'static str,
) -> Result<Option<&'a Value>, ArgumentFault>
    ensures { Answers (ok_or (argument_at key.now (view request.now)) key.now)
        (result_map (option_map (λ v. view v.now)) result) }
{
    argument_at(request, key).ok_or(ArgumentFault::Argument(key))
}

/// The value at a key, which must be there.
pub fn required_value<'a>(request: &'a Value, key: &'static str) -> Result<&'a Value, ArgumentFault>
    ensures { Answers (required_value key.now Some (view request.now))
        (result_map (λ v. view v.now) result) }
{
    optional(request, key)?.ok_or(ArgumentFault::Argument(key))
}

/// A required text.
pub fn text_at<'a>(request: &'a Value, key: &'static str) -> Result<&'a str, ArgumentFault>
    ensures { Answers (required_value key.now as_str (view request.now)) (result_map (λ t. t.now) result) }
{
    required_value(request, key)?
        .as_str()
        .ok_or(ArgumentFault::Argument(key))
}

/// A text, and an empty one if it is absent.
pub fn text_or_empty<'a>(request: &'a Value, key: &'static str) -> Result<&'a str, ArgumentFault>
    ensures { Answers (value_or key.now as_str [] (view request.now)) (result_map (λ t. t.now) result) }
{
    match optional(request, key)? {
        None => Ok(""),
        Some(value) => value.as_str().ok_or(ArgumentFault::Argument(key)),
    }
}

/// The path of a required source.
pub fn path_at<'a>(request: &'a Value, key: &'static str) -> Result<&'a str, ArgumentFault>
    ensures { Answers (required_value key.now (text_at (codes "path")) (view request.now))
        (result_map (λ t. t.now) result) }
{
    members::text_at(required_value(request, key)?, "path").ok_or(ArgumentFault::Argument(key))
}

/// `true` or `false`, and this one if it is absent.
pub fn truth_or(request: &Value, key: &'static str, absent: bool) -> Result<bool, ArgumentFault>
    ensures { Answers (value_or key.now as_bool absent (view request.now)) result }
{
    match optional(request, key)? {
        None => Ok(absent),
        Some(value) => value.as_bool().ok_or(ArgumentFault::Argument(key)),
    }
}

fn byte_of(value: &Value) -> Option<u8>
    ensures { result ≡ byte (view value.now) }
{
    u8::try_from(whole_between(value, 0, 255)?).ok()
}

fn word_of(value: &Value, low: u16, high: u16) -> Option<u16>
    ensures value { result ≡ whole_between low high (view value.now) }
    ensures from { IfSome result (λ n. low ≤ n) }
    ensures to { IfSome result (λ n. n ≤ high) }
{
    let n = whole_between(value, u32::from(low), u32::from(high))?;
    u16::try_from(n).ok()
}

/// A whole number of at most 255, and 0 if it is absent.
pub fn byte_or_0(request: &Value, key: &'static str) -> Result<u8, ArgumentFault>
    ensures { Answers (value_or key.now byte 0 (view request.now)) result }
{
    match optional(request, key)? {
        None => Ok(0),
        Some(value) => byte_of(value).ok_or(ArgumentFault::Argument(key)),
    }
}

/// A required whole number of 32 bits.
pub fn number_at(request: &Value, key: &'static str) -> Result<u32, ArgumentFault>
    ensures { Answers (required_value key.now any_number (view request.now)) result }
{
    whole_between(required_value(request, key)?, 0, u32::MAX).ok_or(ArgumentFault::Argument(key))
}

/// A whole number of 32 bits, and this one if it is absent.
pub fn number_or(request: &Value, key: &'static str, absent: u32) -> Result<u32, ArgumentFault>
    ensures { Answers (value_or key.now any_number absent (view request.now)) result }
{
    match optional(request, key)? {
        None => Ok(absent),
        Some(value) => whole_between(value, 0, u32::MAX).ok_or(ArgumentFault::Argument(key)),
    }
}

/// A required whole number of 16 bits.
pub fn word_at(request: &Value, key: &'static str) -> Result<u16, ArgumentFault>
    ensures { Answers (required_value key.now word (view request.now)) result }
{
    word_of(required_value(request, key)?, 0, 65535).ok_or(ArgumentFault::Argument(key))
}

fn some_word(value: &Value) -> Option<Option<u16>>
    ensures { result ≡ some_word (view value.now) }
{
    Some(Some(word_of(value, 0, 65535)?))
}

/// A whole number of 16 bits, if it isn't absent.
pub fn word_or_none(request: &Value, key: &'static str) -> Result<Option<u16>, ArgumentFault>
    ensures { Answers (value_or key.now some_word None (view request.now)) result }
{
    match optional(request, key)? {
        None => Ok(None),
        Some(value) => some_word(value).ok_or(ArgumentFault::Argument(key)),
    }
}

/// A required whole number from 1 to 1,024.
pub fn count_at(request: &Value, key: &'static str) -> Result<u16, ArgumentFault>
    ensures value { Answers (required_value key.now (whole_between 1 1024) (view request.now)) result }
    ensures from { IfOk result (λ n. 1 ≤ n) }
    ensures to { IfOk result (λ n. n ≤ 1024) }
{
    word_of(required_value(request, key)?, 1, 1024).ok_or(ArgumentFault::Argument(key))
}

/// The required address at `memoryReference`.
pub fn memory_reference(request: &Value) -> Result<u16, ArgumentFault>
    ensures { Answers (memory_reference (view request.now)) result }
{
    let key = "memoryReference";
    address_of(text_at(request, key)?).ok_or(ArgumentFault::Argument(key))
}

// How far an `i64` is from 0, if that is within the bounds.
fn shift_by(n: i64, limit: u32) -> Option<SignedOffset>
    ensures value { result ≡ shift_within limit n }
    ensures within { IfSome result (λ shift. IsBackWithin limit shift) }
{
    if n < 0 {
        let back = u32::try_from(n.unsigned_abs()).ok()?;
        if back > limit {
            return None;
        }
        return Some(SignedOffset::Back(back));
    }
    let forward = u32::try_from(n).ok()?;
    Some(SignedOffset::Forward(forward))
}

/// The offset that a whole number is, which may be negative, down to this limit.
pub fn shift_of(value: &Value, limit: u32) -> Option<SignedOffset>
    ensures value { result ≡ shift limit (view value.now) }
    ensures within { IfSome result (λ shift. IsBackWithin limit shift) }
{
    shift_by(value.as_i64()?, limit)
}

/// A whole number that may be negative, down to this limit; 0 if it is absent.
pub fn shift_or_0(
    request: &Value,
    key: &'static str,
    limit: u32,
) -> Result<SignedOffset, ArgumentFault>
    ensures value { Answers
        (value_or key.now (shift limit) (SignedOffset.Forward 0) (view request.now)) result }
    ensures within { IfOk result (λ shift. IsBackWithin limit shift) }
{
    match optional(request, key)? {
        None => Ok(SignedOffset::Forward(0)),
        Some(value) => shift_of(value, limit).ok_or(ArgumentFault::Argument(key)),
    }
}

/// A number of bytes after a place or before it; 0 if it is absent.
pub fn offset(request: &Value) -> Result<SignedOffset, ArgumentFault>
    ensures { Answers (offset (view request.now)) result }
{
    shift_or_0(request, "offset", u32::MAX)
}

/// A granularity, as `next` has one.
#[tactic(auto, using(crate::proofs::GranularityLemmas::granularity_found))]
pub fn granularity_or_line(request: &Value, key: &'static str) -> Result<Granularity, ArgumentFault>
    ensures { Answers (value_or key.now granularity Line (view request.now)) result }
{
    arguments::granularity_or_line(request, key).ok_or(ArgumentFault::Argument(key))
}

#[tactic(auto, unfolding(dap_messages::specs::Base64::bytes_of, base64::specs::GeneralPurpose::decoded_of))]
fn bytes_of(alloc: Global, text: &str) -> Result<Option<Bytes>, AllocError>
    ensures { IfOk result (λ found. found ≡ bytes_of text.now) }
{
    match STANDARD.decode(alloc, text.as_bytes()) {
        Ok(bytes) => Ok(Some(Bytes::from(bytes))),
        Err(DecodeAllocError::OutOfMemory) => Err(AllocError),
        Err(DecodeAllocError::DecodeError(_)) => Ok(None),
    }
}

/// At most 65,536 required bytes, in base64.
pub fn bytes_at(alloc: Global, request: &Value, key: &'static str) -> Result<Bytes, ArgumentFault>
    ensures answer { Answers (required_value key.now base64 (view request.now)) result }
    ensures short { IfOk result (λ bytes. length bytes ≤ 65536) }
{
    let text = text_at(request, key)?;
    match bytes_of(alloc, text)? {
        Some(bytes) if bytes.len() <= 65536 => Ok(bytes),
        _ => Err(ArgumentFault::Argument(key)),
    }
}
