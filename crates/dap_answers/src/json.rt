//! The JSON of the parts of bodies.
ghost use Rattle.std.specs.Prelude.{◌≡◌, ◌∷◌, ◌++◌, Some, IfOk, OnOk, string_bytes};
ghost use Rattle.serde_json.specs.Data.{Data, string};
ghost use Rattle.serde_json.specs.View.{view};
ghost use Rattle.base_text.specs.Hexadecimal.{upper_byte};
ghost use Rattle.dap_answers.specs.Object.{HasMembers};
ghost use Rattle.dap_answers.specs.Json.{space, reference, spaced_bytes, members_from, object_of};
ghost use Rattle.dap_answers.specs.Json.{list_of, source_json, line_json, breakpoint_json};
ghost use Rattle.dap_answers.specs.Json.{bare_frame, source_members, frame_json, variable_json};
ghost use Rattle.dap_answers.specs.Json.{instruction_json, source_breakpoints_json};

use crate::object::Object;
use base_text::hexadecimal::{push_byte, push_lower_word};
use lab_shown::shown::{Breakpoint, CodeLine, SourceBreakpoints, StackFrame, Variable};
use serde_json::Value;
use std::alloc::{AllocError, Global};

/// A type whose values have a JSON form.
pub trait ToJson {
    ghost json: { Self → Data };

    fn to_json(&self, alloc: Global) -> Result<Value, AllocError>
        ensures { IfOk result (λ v. view v ≡ json self.now) };
}

/// The items as a JSON array.
pub fn array_of<T: ToJson>(alloc: Global, items: &[T]) -> Result<Value, AllocError>
    ensures { IfOk result (λ v. view v ≡ list_of T.json items.now) }
{
    let mut values = Vec::new(alloc);
    for item in items {
        values.push(item.to_json(alloc)?)?;
    }
    Ok(Value::from(values))
}

impl ToJson for Breakpoint {
    ghost json = { breakpoint_json };

    fn to_json(&self, alloc: Global) -> Result<Value, AllocError> {
        Object::new(alloc)
            .number("line", u64::from(self.line))
            .flag("verified", self.is_verified)
            .finish()
    }
}

impl ToJson for Variable {
    ghost json = { variable_json };

    fn to_json(&self, alloc: Global) -> Result<Value, AllocError> {
        Object::new(alloc)
            .text("name", self.name.as_str())
            .text("value", self.value.as_str())
            .number("variablesReference", 0)
            .finish()
    }
}

impl ToJson for u32 {
    ghost json = { line_json };

    fn to_json(&self, alloc: Global) -> Result<Value, AllocError> {
        Object::new(alloc).number("line", u64::from(*self)).finish()
    }
}

impl ToJson for SourceBreakpoints {
    ghost json = { source_breakpoints_json };

    fn to_json(&self, alloc: Global) -> Result<Value, AllocError> {
        let lines = array_of(alloc, self.lines.as_slice())?;
        Object::new(alloc)
            .value("breakpoints", lines)
            .text("source", self.path.as_str())
            .finish()
    }
}

/// The JSON of an address: `0x` and four digits.
pub fn reference(alloc: Global, address: u16) -> Result<Value, AllocError>
    ensures { IfOk result (λ v. view v ≡ string (reference address)) }
{
    let mut text = String::from_str(alloc, "0x")?;
    push_lower_word(&mut text, address)?;
    Ok(Value::from(text))
}

fn push_spaced_byte(text: &mut String, byte: u8) -> Result<(), AllocError>
    ensures { OnOk result
        (string_bytes text.new ≡ string_bytes text.old ++ space ∷ upper_byte byte) }
{
    text.push(' ')?;
    push_byte(text, byte)
}

fn spaced_from(alloc: Global, first: u8, others: &[u8]) -> Result<String, AllocError>
    ensures { IfOk result (λ text. string_bytes text ≡ spaced_bytes (first ∷ others.now)) }
{
    let mut text = String::new(alloc);
    push_byte(&mut text, first)?;
    for byte in others {
        push_spaced_byte(&mut text, *byte)?;
    }
    Ok(text)
}

/// The JSON of bytes: two digits for each, with a blank between them.
pub fn spaced_bytes(alloc: Global, bytes: &[u8]) -> Result<Value, AllocError>
    ensures { IfOk result (λ v. view v ≡ string (spaced_bytes bytes.now)) }
{
    let text = match bytes.split_first() {
        None => String::new(alloc),
        Some((first, others)) => spaced_from(alloc, *first, others)?,
    };
    Ok(Value::from(text))
}

impl ToJson for CodeLine {
    ghost json = { instruction_json };

    fn to_json(&self, alloc: Global) -> Result<Value, AllocError> {
        let address = reference(alloc, self.address)?;
        let bytes = spaced_bytes(alloc, self.bytes.as_slice())?;
        Object::new(alloc)
            .value("address", address)
            .value("instructionBytes", bytes)
            .text("instruction", self.text.as_str())
            .finish()
    }
}

fn source(alloc: Global, path: &str) -> Result<Value, AllocError>
    ensures { IfOk result (λ v. view v ≡ source_json path.now) }
{
    Object::new(alloc).text("path", path).finish()
}

// The members of every frame, with a source or without one.
fn bare_frame(alloc: Global, frame: &StackFrame) -> Result<Object, AllocError>
    ensures { IfOk result (λ o. HasMembers o (members_from (bare_frame frame.now))) }
{
    let address = reference(alloc, frame.address)?;
    Ok(
        Object::new(alloc)
            .value("instructionPointerReference", address)
            .number("id", u64::from(frame.id))
            .text("name", frame.name.as_str())
            .number("line", frame.line as u64)
            .number("column", 1),
    )
}

fn frame_with_source(alloc: Global, frame: &StackFrame, path: &str) -> Result<Value, AllocError>
    ensures { IfOk result
        (λ v. view v ≡ object_of (bare_frame frame.now ++ source_members (Some path.now))) }
{
    let source = source(alloc, path)?;
    bare_frame(alloc, frame)?.value("source", source).finish()
}

impl ToJson for StackFrame {
    ghost json = { frame_json };

    fn to_json(&self, alloc: Global) -> Result<Value, AllocError> {
        match &self.source {
            None => bare_frame(alloc, self)?.finish(),
            Some(path) => frame_with_source(alloc, self, path.as_str()),
        }
    }
}
