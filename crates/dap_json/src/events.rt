//! The JSON of events.
ghost use Rattle.std.specs.Prelude.{◌≡◌, IfOk, OnOk, [], ◌∷◌, ◌++◌, codes, string_bytes, true};
ghost use Rattle.serde_json.specs.Data.{string, boolean};
ghost use Rattle.serde_json.specs.View.{view};
ghost use Rattle.dap_answers.specs.Json.{object_of, list_of, whole_number};
ghost use Rattle.dap_answers.specs.Object.{HasMembers};
ghost use Rattle.dap_answers.specs.Json.{members_from};
ghost use Rattle.dap_json.specs.Json.{category_text};
ghost use Rattle.dap_json.specs.Json.{bare_stop_json, halted_json, stopped_at_json, stopped_json};
ghost use Rattle.dap_json.specs.Json.{place_name, place_value_text, change_text};
ghost use Rattle.dap_json.specs.Json.{kind_reason, breakpoint_stop_json};
ghost use Rattle.dap_json.specs.Json.{bare_output, placed_output};
ghost use Rattle.dap_json.specs.Json.{invalidated_json, memory_changed_json};
ghost use Rattle.dap_json.specs.Json.{output_json, log_json, changed_json, exited_json};
ghost use Rattle.dap_json.specs.Json.{editor_event_json};

use crate::bodies::exception_text;
use crate::sources::source;
use crate::told::ToldJson;
use base_text::hexadecimal::{push_byte, push_word};
use base_text::latin;
use base_text::text::Text;
use dap_answers::answer::Event;
use dap_answers::json::reference;
use dap_answers::object::Object;
use dap_answers::sending::{bare_event, event, event_with_body};
use dap_messages::message::{
    BreakpointKind, BreakpointStop, EditorEvent, EditorStop, Numbering, OutputCategory,
    PlacedBreakpoint, SourcePlace, UndefinedOpcode,
};
use lab_shown::place::{Place, PlaceChange};
use serde_json::Value;
use std::alloc::{AllocError, Global};

/// The text of `category` in `output`.
fn category_text(category: OutputCategory) -> &'static str
    ensures { result.now ≡ category_text category }
{
    match category {
        OutputCategory::Console => "console",
        OutputCategory::Stdout => "stdout",
        OutputCategory::Stderr => "stderr",
    }
}

fn bare_stop(alloc: Global, reason: &str) -> Result<Value, AllocError>
    ensures { IfOk result (λ v. view v ≡ bare_stop_json reason.now) }
{
    Object::new(alloc)
        .text("reason", reason)
        .number("threadId", 1)
        .flag("allThreadsStopped", true)
        .finish()
}

fn halted_body(alloc: Global) -> Result<Value, AllocError>
    ensures { IfOk result (λ v. view v ≡ halted_json) }
{
    Object::new(alloc)
        .text("reason", "step")
        .text("description", "halted")
        .number("threadId", 1)
        .flag("allThreadsStopped", true)
        .finish()
}

fn stopped_at_body(alloc: Global, undefined: UndefinedOpcode) -> Result<Value, AllocError>
    ensures { IfOk result (λ v. view v ≡ stopped_at_json undefined) }
{
    let text = exception_text(alloc, undefined)?;
    Object::new(alloc)
        .text("reason", "exception")
        .text("text", text.as_str())
        .number("threadId", 1)
        .flag("allThreadsStopped", true)
        .finish()
}

fn push_place(text: &mut String, place: Place) -> Result<(), AllocError>
    ensures { OnOk result (string_bytes text.new ≡ string_bytes text.old ++ place_name place) }
{
    match place {
        Place::A => text.push_str("A"),
        Place::B => text.push_str("B"),
        Place::C => text.push_str("C"),
        Place::D => text.push_str("D"),
        Place::E => text.push_str("E"),
        Place::H => text.push_str("H"),
        Place::L => text.push_str("L"),
        Place::Sp => text.push_str("SP"),
        Place::Pc => text.push_str("PC"),
        Place::Memory(address) => push_word(text, address),
    }
}

fn push_value(text: &mut String, place: Place, value: u16) -> Result<(), AllocError>
    ensures { OnOk result (string_bytes text.new
        ≡ string_bytes text.old ++ place_value_text place value) }
{
    match place {
        Place::Sp | Place::Pc => push_word(text, value)?,
        _ => push_byte(text, (value % 256) as u8)?,
    }
    text.push_str("H")
}

fn change_text(alloc: Global, change: PlaceChange) -> Result<Text, AllocError>
    ensures { IfOk result (λ text. text ≡ change_text change) }
{
    let mut text = String::new(alloc);
    push_place(&mut text, change.place)?;
    text.push_str(": ")?;
    push_value(&mut text, change.place, change.after)?;
    text.push_str(", was ")?;
    push_value(&mut text, change.place, change.before)?;
    text.push_str(", by ")?;
    push_word(&mut text, change.by)?;
    Ok(Text::from(text))
}

fn kind_reason(kind: BreakpointKind) -> &'static str
    ensures { result.now ≡ kind_reason kind }
{
    match kind {
        BreakpointKind::Line => "breakpoint",
        BreakpointKind::Label => "function breakpoint",
        BreakpointKind::Data(_) => "data breakpoint",
        BreakpointKind::Instruction => "instruction breakpoint",
    }
}

fn every_id(alloc: Global, ids: &[u32]) -> Result<Value, AllocError>
    ensures { IfOk result (λ v. view v ≡ list_of whole_number ids.now) }
{
    let mut values = Vec::new(alloc);
    for id in ids {
        values.push(Value::from(u64::from(*id)))?;
    }
    Ok(Value::from(values))
}

// The members of every stop at breakpoints, without a description.
fn bare_breakpoint_stop(alloc: Global, stop: &BreakpointStop) -> Result<Object, AllocError>
    ensures { IfOk result (λ o. HasMembers o (members_from ((codes "allThreadsStopped", boolean true) ∷
        (codes "hitBreakpointIds", list_of whole_number stop.now.ids) ∷
        (codes "reason", string (kind_reason stop.now.kind)) ∷
        (codes "threadId", whole_number 1) ∷ []))) }
{
    let ids = every_id(alloc, stop.ids.as_slice())?;
    Ok(
        Object::new(alloc)
            .text("reason", kind_reason(stop.kind))
            .value("hitBreakpointIds", ids)
            .number("threadId", 1)
            .flag("allThreadsStopped", true),
    )
}

fn breakpoint_stop(alloc: Global, stop: &BreakpointStop) -> Result<Value, AllocError>
    ensures { IfOk result (λ v. view v ≡ breakpoint_stop_json stop.now) }
{
    let bare = bare_breakpoint_stop(alloc, stop)?;
    match stop.kind {
        BreakpointKind::Data(change) => {
            let text = change_text(alloc, change)?;
            bare.text("description", text.as_str()).finish()
        }
        BreakpointKind::Line | BreakpointKind::Label | BreakpointKind::Instruction => {
            bare.finish()
        }
    }
}

fn stopped(alloc: Global, seq: u64, reason: EditorStop) -> Result<Value, AllocError>
    ensures { IfOk result (λ v. view v ≡ stopped_json seq reason) }
{
    match reason {
        EditorStop::Entry => event_with_body(alloc, seq, "stopped", bare_stop(alloc, "entry")?),
        EditorStop::Goto => event_with_body(alloc, seq, "stopped", bare_stop(alloc, "goto")?),
        EditorStop::Halted => event_with_body(alloc, seq, "stopped", halted_body(alloc)?),
        EditorStop::Exception(undefined) => {
            event_with_body(alloc, seq, "stopped", stopped_at_body(alloc, undefined)?)
        }
        EditorStop::Board(reason) => event(alloc, seq, Event::Stopped(reason)),
    }
}

// The members of every output, with a place or without one.
fn bare_output(alloc: Global, category: OutputCategory, bytes: &[u8]) -> Result<Object, AllocError>
    ensures { IfOk result (λ o. HasMembers o (members_from (bare_output category bytes.now))) }
{
    let text = Value::from(latin::to_text(alloc, bytes)?);
    Ok(
        Object::new(alloc)
            .text("category", category_text(category))
            .value("output", text),
    )
}

fn placed_output(
    alloc: Global,
    numbering: Numbering,
    category: OutputCategory,
    bytes: &[u8],
    place: &SourcePlace,
) -> Result<Value, AllocError>
    ensures { IfOk result (λ v. view v ≡ placed_output numbering category bytes.now place.now) }
{
    let source = source(alloc, place.path.as_str())?;
    bare_output(alloc, category, bytes)?
        .value("source", source)
        .number("line", numbering.line_told(u64::from(place.line)))
        .number("column", numbering.column_told(u64::from(place.column)))
        .finish()
}

fn output(
    alloc: Global,
    numbering: Numbering,
    category: OutputCategory,
    bytes: &[u8],
    place: &Option<SourcePlace>,
) -> Result<Value, AllocError>
    ensures { IfOk result (λ v. view v ≡ output_json numbering category bytes.now place.now) }
{
    match place {
        None => bare_output(alloc, category, bytes)?.finish(),
        Some(place) => placed_output(alloc, numbering, category, bytes, place),
    }
}

fn log(
    alloc: Global,
    numbering: Numbering,
    text: &Text,
    place: &SourcePlace,
) -> Result<Value, AllocError>
    ensures { IfOk result (λ v. view v ≡ log_json numbering text.now place.now) }
{
    let mut line = String::from_str(alloc, text.as_str())?;
    line.push_str("\n")?;
    let source = source(alloc, place.path.as_str())?;
    Object::new(alloc)
        .text("category", category_text(OutputCategory::Console))
        .text("output", line.as_str())
        .value("source", source)
        .number("line", numbering.line_told(u64::from(place.line)))
        .number("column", numbering.column_told(u64::from(place.column)))
        .finish()
}

fn changed(
    alloc: Global,
    numbering: Numbering,
    breakpoint: &PlacedBreakpoint,
) -> Result<Value, AllocError>
    ensures { IfOk result (λ v. view v ≡ changed_json numbering breakpoint.now) }
{
    let breakpoint = breakpoint.told_json(alloc, numbering)?;
    Object::new(alloc)
        .value("breakpoint", breakpoint)
        .text("reason", "changed")
        .finish()
}

fn areas(alloc: Global) -> Result<Value, AllocError>
    ensures { IfOk result (λ v. view v ≡ list_of string (codes "stacks" ∷ codes "variables" ∷ [])) }
{
    let stacks = String::from_str(alloc, "stacks")?;
    let variables = String::from_str(alloc, "variables")?;
    let mut areas = Vec::new(alloc);
    areas.push(Value::from(stacks))?;
    areas.push(Value::from(variables))?;
    Ok(Value::from(areas))
}

fn invalidated(alloc: Global) -> Result<Value, AllocError>
    ensures { IfOk result (λ v. view v ≡ invalidated_json) }
{
    let areas = areas(alloc)?;
    Object::new(alloc).value("areas", areas).finish()
}

fn memory_changed(alloc: Global) -> Result<Value, AllocError>
    ensures { IfOk result (λ v. view v ≡ memory_changed_json) }
{
    let reference = reference(alloc, 0)?;
    Object::new(alloc)
        .value("memoryReference", reference)
        .number("offset", 0)
        .number("count", 65_536)
        .finish()
}

fn exited(alloc: Global, code: u8) -> Result<Value, AllocError>
    ensures { IfOk result (λ v. view v ≡ exited_json code) }
{
    Object::new(alloc)
        .number("exitCode", u64::from(code))
        .finish()
}

/// The JSON of an event, with `seq` as its number.
pub fn editor_event_json(
    alloc: Global,
    numbering: Numbering,
    seq: u64,
    message: &EditorEvent,
) -> Result<Value, AllocError>
    ensures { IfOk result (λ v. view v ≡ editor_event_json numbering seq message.now) }
{
    match message {
        EditorEvent::Initialized => event(alloc, seq, Event::Initialized),
        EditorEvent::Stopped(reason) => stopped(alloc, seq, *reason),
        EditorEvent::StoppedAt(stop) => {
            event_with_body(alloc, seq, "stopped", breakpoint_stop(alloc, stop)?)
        }
        EditorEvent::Continued => event(alloc, seq, Event::Continued),
        EditorEvent::Output {
            category,
            bytes,
            place,
        } => {
            let body = output(alloc, numbering, *category, bytes.as_slice(), place)?;
            event_with_body(alloc, seq, "output", body)
        }
        EditorEvent::Log { text, place } => {
            event_with_body(alloc, seq, "output", log(alloc, numbering, text, place)?)
        }
        EditorEvent::Breakpoint(breakpoint) => {
            event_with_body(
                alloc,
                seq,
                "breakpoint",
                changed(alloc, numbering, breakpoint)?,
            )
        }
        EditorEvent::Invalidated => {
            event_with_body(alloc, seq, "invalidated", invalidated(alloc)?)
        }
        EditorEvent::Memory => event_with_body(alloc, seq, "memory", memory_changed(alloc)?),
        EditorEvent::Exited { code } => event_with_body(
            alloc,
            seq,
            "exited",
            exited(alloc, *code)?,
        ),
        EditorEvent::Terminated => bare_event(alloc, seq, "terminated").finish(),
    }
}
