//! The arguments of a request, one function for each type.
ghost use Rattle.std.specs.Prelude.{◌≡◌, ◌<◌, IfOk, IfSome, IsSome, is_some, option_map, option_and_then};
ghost use Rattle.serde_json.specs.Find.{as_array};
ghost use Rattle.serde_json.specs.View.{view, items_view};
ghost use Rattle.dap_talk.specs.declared.arguments.ArgumentFault.TheVariants.{OutOfMemory};
ghost use Rattle.dap_talk.specs.Argument.{number, text, truth, source, address, found_number};
ghost use Rattle.dap_talk.specs.Argument.{found_text, found_truth, found_lines, found_granularity};
ghost use Rattle.dap_talk.specs.Argument.{whole_between, is_plain, line_of, lines_of, at_most_256};
ghost use Rattle.dap_talk.specs.Argument.{address_of, argument_at, argument_value, required_argument};
ghost use Rattle.dap_talk.specs.Table.{byte, count_to_256, number_or_0, breakpoints_or_none};
ghost use Rattle.dap_talk.specs.Table.{granularity_or_line};

use crate::members::{self, member_at};
use base_text::hexadecimal::read_word;
use base_text::sequence::Sequence;
use lab_shown::step::Granularity;
use serde_json::Value;
use std::alloc::{AllocError, Global};

/// Why a command can't be read.
#[derive(Clone, Copy)]
pub enum ArgumentFault {
    OutOfMemory,
    Arguments,
}

impl From<AllocError> for ArgumentFault {
    ghost from_gives = { λ _ refusal. refusal ≡ OutOfMemory };

    fn from(_e: AllocError) -> ArgumentFault {
        ArgumentFault::OutOfMemory
    }
}

/// The whole number that a value is, if it is one within these bounds.
pub fn whole_between(value: &Value, low: u32, high: u32) -> Option<u32>
    ensures { result ≡ whole_between low high (view value.now) }
{
    let n = value.as_u64()?;
    if n < u64::from(low) || n > u64::from(high) {
        return None;
    }
    Some(n as u32)
}

/// The argument at a key, and `Some(None)` if there is none. `None` if the arguments aren't an object.
pub fn argument_at<'a>(request: &'a Value, key: &str) -> Option<Option<&'a Value>>
    ensures { option_map (option_map (λ v. view v.now)) result
        ≡ argument_at key.now (view request.now) }
{
    match request.get("arguments") {
        None => Some(None),
        Some(arguments) => member_at(arguments, key),
    }
}

/// A required whole number within these bounds.
pub fn number_at(request: &Value, key: &str, low: u32, high: u32) -> Option<u32>
    ensures { option_map found_number result
        ≡ argument_value (required_argument key.now (number low high)) (view request.now) }
{
    whole_between(argument_at(request, key)??, low, high)
}

/// A whole number of 32 bits, and 0 if it is absent.
pub fn number_or_0(request: &Value, key: &str) -> Option<u32>
    ensures { option_map found_number result ≡ argument_value (number_or_0 key.now) (view request.now) }
{
    match argument_at(request, key)? {
        None => Some(0),
        Some(value) => whole_between(value, 0, u32::MAX),
    }
}

/// A required number of at most 255.
pub fn byte_at(request: &Value, key: &str) -> Option<u8>
    ensures { option_map found_number result
        ≡ argument_value (required_argument key.now byte) (view request.now) }
{
    let n = number_at(request, key, 0, 255)?;
    u8::try_from(n).ok()
}

/// A required number from 1 to 256.
pub fn count_at(request: &Value, key: &str) -> Option<u16>
    ensures { option_map found_number result
        ≡ argument_value (required_argument key.now count_to_256) (view request.now) }
{
    let n = number_at(request, key, 1, 256)?;
    u16::try_from(n).ok()
}

/// A required text.
pub fn text_at<'a>(request: &'a Value, key: &str) -> Option<&'a str>
    ensures { option_map (λ t. found_text t.now) result
        ≡ argument_value (required_argument key.now text) (view request.now) }
{
    argument_at(request, key)??.as_str()
}

/// A required `true` or `false`.
pub fn truth_at(request: &Value, key: &str) -> Option<bool>
    ensures { option_map found_truth result
        ≡ argument_value (required_argument key.now truth) (view request.now) }
{
    argument_at(request, key)??.as_bool()
}

/// The path of a required source.
pub fn source_at<'a>(request: &'a Value, key: &str) -> Option<&'a str>
    ensures { option_map (λ t. found_text t.now) result
        ≡ argument_value (required_argument key.now source) (view request.now) }
{
    members::text_at(argument_at(request, key)??, "path")
}

/// A granularity: `instruction`, and by line for any other text or none.
pub fn granularity_or_line(request: &Value, key: &str) -> Option<Granularity>
    ensures { option_map found_granularity result
        ≡ argument_value (granularity_or_line key.now) (view request.now) }
{
    let Some(value) = argument_at(request, key)? else {
        return Some(Granularity::Line);
    };
    if value.as_str()? == "instruction" {
        Some(Granularity::Instruction)
    } else {
        Some(Granularity::Line)
    }
}

/// The address that a text names: `0x` and four hexadecimal digits.
pub fn address_of(text: &str) -> Option<u16>
    ensures { result ≡ address_of text.now }
{
    let [b'0', b'x', digits @ ..] = text.as_bytes() else {
        return None;
    };
    read_word(digits)
}

/// A required address: `0x` and four hexadecimal digits.
pub fn address_at(request: &Value, key: &str) -> Option<u16>
    ensures { option_map found_number result
        ≡ argument_value (required_argument key.now address) (view request.now) }
{
    address_of(argument_at(request, key)??.as_str()?)
}

fn is_plain(breakpoint: &Value) -> bool
    ensures { result ≡ is_plain (view breakpoint.now) }
{
    breakpoint.get("condition").is_none()
        && breakpoint.get("hitCondition").is_none()
        && breakpoint.get("logMessage").is_none()
}

fn line_of(breakpoint: &Value) -> Option<u32>
    ensures { result ≡ line_of (view breakpoint.now) }
{
    if !is_plain(breakpoint) {
        return None;
    }
    whole_between(breakpoint.get("line")?, 0, u32::MAX)
}

fn have_lines(breakpoints: &[Value]) -> bool
    ensures { result ≡ is_some (lines_of (items_view breakpoints.now)) }
{
    for breakpoint in breakpoints {
        if line_of(breakpoint).is_none() {
            return false;
        }
    }
    true
}

#[tactic(auto, using(crate::proofs::LineLemmas::few_items))]
fn breakpoints_in(value: &Value) -> Option<&[Value]>
    ensures found { option_and_then (λ bs. lines_of (items_view bs.now)) result
        ≡ option_and_then lines_of (option_and_then at_most_256 (as_array (view value.now))) }
    ensures lines { IfSome result (λ bs. IsSome (lines_of (items_view bs.now))) }
{
    let breakpoints = value.as_array()?.as_slice();
    if breakpoints.len() > 256 {
        return None;
    }
    if !have_lines(breakpoints) {
        return None;
    }
    Some(breakpoints)
}

/// At most 256 breakpoints, each with a line and without conditions; an empty list if they are absent.
pub fn breakpoints_or_none<'a>(request: &'a Value, key: &str) -> Option<&'a [Value]>
    ensures found { option_map found_lines
        (option_and_then (λ bs. lines_of (items_view bs.now)) result)
        ≡ argument_value (breakpoints_or_none key.now) (view request.now) }
    ensures lines { IfSome result (λ bs. IsSome (lines_of (items_view bs.now))) }
{
    match argument_at(request, key)? {
        None => Some(&[]),
        Some(value) => breakpoints_in(value),
    }
}

/// The lines of breakpoints, if each has one.
pub fn lines_of(alloc: Global, breakpoints: &[Value]) -> Result<Option<Sequence<u32>>, AllocError>
    ensures { IfOk result (λ found. found ≡ lines_of (items_view breakpoints.now)) }
{
    let mut lines = Vec::new(alloc);
    for breakpoint in breakpoints {
        let Some(line) = line_of(breakpoint) else {
            return Ok(None);
        };
        lines.push(line)?;
    }
    Ok(Some(Sequence::from(lines)))
}
