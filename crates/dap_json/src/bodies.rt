//! The JSON of bodies.
ghost use Rattle.std.specs.Prelude.{◌≡◌, ◌∷◌, ◌++◌, [], IfOk, codes, option_to_list};
ghost use Rattle.serde_json.specs.Data.{string, boolean};
ghost use Rattle.serde_json.specs.View.{view};
ghost use Rattle.dap_answers.specs.Object.{HasMembers};
ghost use Rattle.dap_answers.specs.Json.{members_from, list_of, one_list, reference};
ghost use Rattle.dap_answers.specs.Json.{whole_number};
ghost use Rattle.dap_json.specs.Json.{note_text, line_members, address_members, placed_json};
ghost use Rattle.dap_json.specs.Json.{base64_text};
ghost use Rattle.dap_json.specs.Json.{data_members, filter_json, filters_json};
ghost use Rattle.dap_json.specs.Json.{can, capabilities_json};
ghost use Rattle.dap_json.specs.Json.{target_json, location_json};
ghost use Rattle.dap_json.specs.Json.{watchable_json, data_info_json};
ghost use Rattle.dap_json.specs.Json.{exception_text, exception_json};
ghost use Rattle.dap_json.specs.Json.{memory_json, no_memory_json, written_json};
ghost use Rattle.dap_json.specs.Json.{editor_body_json};

use crate::instructions::instructions;
use crate::sources::{board_body, sources};
use crate::told::{ToldJson, told_list};
use crate::variables::{completions, evaluation, scopes, value_set, variables};
use base_text::hexadecimal::{push_byte, push_word};
use base_text::text::Text;
use base64::engine::general_purpose::STANDARD;
use dap_answers::json::reference;
use dap_answers::object::Object;
use dap_messages::message::{
    BreakpointNote, DataInfo, EditorBody, GotoTarget, Numbering, PlacedBreakpoint, UndefinedOpcode,
};
use serde_json::Value;
use std::alloc::{AllocError, Global};

fn filter(alloc: Global, name: &str, label: &str, is_default: bool) -> Result<Value, AllocError>
    ensures { IfOk result (λ v. view v ≡ filter_json name.now label.now is_default) }
{
    Object::new(alloc)
        .flag("default", is_default)
        .text("filter", name)
        .text("label", label)
        .finish()
}

fn filters(alloc: Global) -> Result<Value, AllocError>
    ensures { IfOk result (λ v. view v ≡ filters_json) }
{
    let undefined = filter(alloc, "undefined", "Undefined opcodes", true)?;
    let halt = filter(alloc, "halt", "HLT", false)?;
    let mut filters = Vec::new(alloc);
    filters.push(undefined)?;
    filters.push(halt)?;
    Ok(Value::from(filters))
}

// The capabilities that are requests.
fn request_capabilities(alloc: Global) -> Object
    ensures { HasMembers result (members_from (
        can (codes "supportsBreakpointLocationsRequest") ∷
        can (codes "supportsCompletionsRequest") ∷
        can (codes "supportsConfigurationDoneRequest") ∷
        can (codes "supportsDisassembleRequest") ∷
        can (codes "supportsExceptionInfoRequest") ∷
        can (codes "supportsGotoTargetsRequest") ∷
        can (codes "supportsLoadedSourcesRequest") ∷
        can (codes "supportsReadMemoryRequest") ∷
        can (codes "supportsRestartRequest") ∷
        can (codes "supportsTerminateRequest") ∷
        can (codes "supportsWriteMemoryRequest") ∷ [])) }
{
    Object::new(alloc)
        .flag("supportsBreakpointLocationsRequest", true)
        .flag("supportsCompletionsRequest", true)
        .flag("supportsConfigurationDoneRequest", true)
        .flag("supportsDisassembleRequest", true)
        .flag("supportsExceptionInfoRequest", true)
        .flag("supportsGotoTargetsRequest", true)
        .flag("supportsLoadedSourcesRequest", true)
        .flag("supportsReadMemoryRequest", true)
        .flag("supportsRestartRequest", true)
        .flag("supportsTerminateRequest", true)
        .flag("supportsWriteMemoryRequest", true)
}

// Those, and the others that are about breakpoints.
fn breakpoint_capabilities(alloc: Global) -> Object
    ensures { HasMembers result (members_from (
        can (codes "supportsBreakpointLocationsRequest") ∷
        can (codes "supportsCompletionsRequest") ∷
        can (codes "supportsConditionalBreakpoints") ∷
        can (codes "supportsConfigurationDoneRequest") ∷
        can (codes "supportsDataBreakpointBytes") ∷
        can (codes "supportsDataBreakpoints") ∷
        can (codes "supportsDisassembleRequest") ∷
        can (codes "supportsExceptionInfoRequest") ∷
        can (codes "supportsFunctionBreakpoints") ∷
        can (codes "supportsGotoTargetsRequest") ∷
        can (codes "supportsHitConditionalBreakpoints") ∷
        can (codes "supportsInstructionBreakpoints") ∷
        can (codes "supportsLoadedSourcesRequest") ∷
        can (codes "supportsLogPoints") ∷
        can (codes "supportsReadMemoryRequest") ∷
        can (codes "supportsRestartRequest") ∷
        can (codes "supportsTerminateRequest") ∷
        can (codes "supportsWriteMemoryRequest") ∷ [])) }
{
    request_capabilities(alloc)
        .flag("supportsConditionalBreakpoints", true)
        .flag("supportsDataBreakpointBytes", true)
        .flag("supportsDataBreakpoints", true)
        .flag("supportsFunctionBreakpoints", true)
        .flag("supportsHitConditionalBreakpoints", true)
        .flag("supportsInstructionBreakpoints", true)
        .flag("supportsLogPoints", true)
}

fn capabilities(alloc: Global) -> Result<Value, AllocError>
    ensures { IfOk result (λ v. view v ≡ capabilities_json) }
{
    let filters = filters(alloc)?;
    breakpoint_capabilities(alloc)
        .value("exceptionBreakpointFilters", filters)
        .flag("supportsDelayedStackTraceLoading", true)
        .flag("supportsEvaluateForHovers", true)
        .flag("supportsSetExpression", true)
        .flag("supportsSetVariable", true)
        .flag("supportsStepBack", true)
        .flag("supportsSteppingGranularity", true)
        .flag("supportsValueFormattingOptions", true)
        .finish()
}

fn note_text(alloc: Global, note: &BreakpointNote) -> Result<Text, AllocError>
    ensures { IfOk result (λ text. text ≡ note_text note.now) }
{
    let mut text = String::new(alloc);
    match note {
        BreakpointNote::Moved { from } => write!(text, "moved from line {from}")?,
        BreakpointNote::NoCode { line } => write!(text, "no code at or below line {line}")?,
        BreakpointNote::NotLaunched => text.push_str("nothing is launched yet")?,
        BreakpointNote::OtherProgram(path) => {
            text.push_str("the program is ")?;
            text.push_str(path.as_str())?;
        }
        BreakpointNote::Wrong(why) => text.push_str(why.as_str())?,
        BreakpointNote::NotText => {
            text.push_str("conditions and log messages must be texts")?;
        }
        BreakpointNote::NoLabel => text.push_str("the program has no such label")?,
        BreakpointNote::NoAddress => text.push_str("there is no such address")?,
        BreakpointNote::TooManyData => text.push_str("more than 16 data breakpoints")?,
    }
    Ok(Text::from(text))
}

// The members of a breakpoint, without its address and its note.
fn bare_breakpoint(alloc: Global, numbering: Numbering, breakpoint: &PlacedBreakpoint) -> Object
    ensures { HasMembers result (members_from ((codes "id", whole_number breakpoint.now.id) ∷
        line_members numbering breakpoint.now.line
        ++ (codes "verified", boolean breakpoint.now.is_verified) ∷ [])) }
{
    let bare = Object::new(alloc)
        .number("id", u64::from(breakpoint.id))
        .flag("verified", breakpoint.is_verified);
    match breakpoint.line {
        None => bare,
        Some(line) => bare.number("line", numbering.line_told(u64::from(line))),
    }
}

// The members of a breakpoint, without its note.
fn placed_breakpoint(
    alloc: Global,
    numbering: Numbering,
    breakpoint: &PlacedBreakpoint,
) -> Result<Object, AllocError>
    ensures { IfOk result (λ o. HasMembers o (members_from ((codes "id", whole_number breakpoint.now.id) ∷
        address_members breakpoint.now.address ++ (line_members numbering breakpoint.now.line
        ++ (codes "verified", boolean breakpoint.now.is_verified) ∷ [])))) }
{
    let bare = bare_breakpoint(alloc, numbering, breakpoint);
    match breakpoint.address {
        None => Ok(bare),
        Some(address) => {
            let reference = reference(alloc, address)?;
            Ok(bare.value("instructionReference", reference))
        }
    }
}

impl ToldJson for PlacedBreakpoint {
    ghost json = { placed_json };

    fn told_json(&self, alloc: Global, numbering: Numbering) -> Result<Value, AllocError> {
        let placed = placed_breakpoint(alloc, numbering, self)?;
        match &self.note {
            None => placed.finish(),
            Some(note) => {
                let text = note_text(alloc, note)?;
                placed.text("message", text.as_str()).finish()
            }
        }
    }
}

fn breakpoints(
    alloc: Global,
    numbering: Numbering,
    list: &[PlacedBreakpoint],
) -> Result<Value, AllocError>
    ensures { IfOk result (λ v. view v
        ≡ one_list (codes "breakpoints") (placed_json numbering) list.now) }
{
    let list = told_list(alloc, numbering, list)?;
    Object::new(alloc).value("breakpoints", list).finish()
}

// A line that can have a breakpoint.
impl ToldJson for u32 {
    ghost json = { location_json };

    fn told_json(&self, alloc: Global, numbering: Numbering) -> Result<Value, AllocError> {
        Object::new(alloc)
            .number("line", numbering.line_told(u64::from(*self)))
            .finish()
    }
}

fn locations(alloc: Global, numbering: Numbering, lines: &[u32]) -> Result<Value, AllocError>
    ensures { IfOk result (λ v. view v
        ≡ one_list (codes "breakpoints") (location_json numbering) lines.now) }
{
    let lines = told_list(alloc, numbering, lines)?;
    Object::new(alloc).value("breakpoints", lines).finish()
}

fn access_types(alloc: Global) -> Result<Value, AllocError>
    ensures { IfOk result (λ v. view v ≡ list_of string (codes "write" ∷ [])) }
{
    let write = String::from_str(alloc, "write")?;
    let mut types = Vec::new(alloc);
    types.push(Value::from(write))?;
    Ok(Value::from(types))
}

fn watchable(alloc: Global, id: &str, description: &str) -> Result<Value, AllocError>
    ensures { IfOk result (λ v. view v ≡ watchable_json id.now description.now) }
{
    let types = access_types(alloc)?;
    Object::new(alloc)
        .text("dataId", id)
        .text("description", description)
        .value("accessTypes", types)
        .flag("canPersist", true)
        .finish()
}

fn data_info(alloc: Global, info: &DataInfo) -> Result<Value, AllocError>
    ensures { IfOk result (λ v. view v ≡ data_info_json info.now) }
{
    let description = info.description.as_str();
    match &info.data_id {
        None => Object::new(alloc)
            .value("dataId", Value::Null)
            .text("description", description)
            .finish(),
        Some(id) => watchable(alloc, id.as_str(), description),
    }
}

/// How an exception is named, with the opcode and its address.
pub fn exception_text(alloc: Global, undefined: UndefinedOpcode) -> Result<Text, AllocError>
    ensures { IfOk result (λ text. text ≡ exception_text undefined) }
{
    let mut text = String::new(alloc);
    text.push_str("UndefinedOpcode: ")?;
    push_byte(&mut text, undefined.opcode)?;
    text.push_str(" at ")?;
    push_word(&mut text, undefined.pc)?;
    Ok(Text::from(text))
}

fn exception(alloc: Global, undefined: UndefinedOpcode) -> Result<Value, AllocError>
    ensures { IfOk result (λ v. view v ≡ exception_json undefined) }
{
    let description = exception_text(alloc, undefined)?;
    Object::new(alloc)
        .text("exceptionId", "UndefinedOpcode")
        .text("description", description.as_str())
        .text("breakMode", "unhandled")
        .finish()
}

#[tactic(auto, unfolding(crate::specs::Json::base64_text))]
fn base64_text(alloc: Global, bytes: &[u8]) -> Result<Value, AllocError>
    ensures { IfOk result (λ v. view v ≡ string (base64_text bytes.now)) }
{
    Ok(Value::from(STANDARD.encode(alloc, bytes)?))
}

// The members of a body of memory, without the count of unreadable bytes.
fn read_bytes(alloc: Global, address: u16, bytes: &[u8]) -> Result<Object, AllocError>
    ensures { IfOk result (λ o. HasMembers o (members_from
        ((codes "address", string (reference address)) ∷ data_members bytes.now))) }
{
    let address = reference(alloc, address)?;
    let bare = Object::new(alloc).value("address", address);
    if bytes.is_empty() {
        return Ok(bare);
    }
    let text = base64_text(alloc, bytes)?;
    Ok(bare.value("data", text))
}

fn memory(alloc: Global, address: u16, bytes: &[u8], unreadable: u32) -> Result<Value, AllocError>
    ensures { IfOk result (λ v. view v ≡ memory_json address bytes.now unreadable) }
{
    let read = read_bytes(alloc, address, bytes)?;
    if unreadable == 0 {
        return read.finish();
    }
    read.number("unreadableBytes", u64::from(unreadable))
        .finish()
}

fn no_memory(alloc: Global, address: i64, count: u32) -> Result<Value, AllocError>
    ensures { IfOk result (λ v. view v ≡ no_memory_json address count) }
{
    let mut text = String::new(alloc);
    write!(text, "{address}")?;
    let bare = Object::new(alloc).text("address", text.as_str());
    if count == 0 {
        return bare.finish();
    }
    bare.number("unreadableBytes", u64::from(count)).finish()
}

fn written(alloc: Global, count: u32) -> Result<Value, AllocError>
    ensures { IfOk result (λ v. view v ≡ written_json count) }
{
    Object::new(alloc)
        .number("bytesWritten", u64::from(count))
        .finish()
}

impl ToldJson for GotoTarget {
    ghost json = { target_json };

    fn told_json(&self, alloc: Global, numbering: Numbering) -> Result<Value, AllocError> {
        let mut label = String::new(alloc);
        push_word(&mut label, self.address)?;
        let reference = reference(alloc, self.address)?;
        Object::new(alloc)
            .number("id", u64::from(self.address))
            .value("instructionPointerReference", reference)
            .text("label", label.as_str())
            .number("line", numbering.line_told(u64::from(self.line)))
            .finish()
    }
}

fn targets(
    alloc: Global,
    numbering: Numbering,
    target: Option<GotoTarget>,
) -> Result<Value, AllocError>
    ensures { IfOk result (λ v. view v
        ≡ one_list (codes "targets") (target_json numbering) (option_to_list target)) }
{
    let mut targets = Vec::new(alloc);
    if let Some(target) = target {
        targets.push(target.told_json(alloc, numbering)?)?;
    }
    Object::new(alloc)
        .value("targets", Value::from(targets))
        .finish()
}

/// The JSON of a body.
pub fn editor_body_json(
    alloc: Global,
    numbering: Numbering,
    body: &EditorBody,
) -> Result<Value, AllocError>
    ensures { IfOk result (λ v. view v ≡ editor_body_json numbering body.now) }
{
    match body {
        EditorBody::Board(body) => board_body(alloc, numbering, body),
        EditorBody::Capabilities(_) => capabilities(alloc),
        EditorBody::Breakpoints(list) => breakpoints(alloc, numbering, list.as_slice()),
        EditorBody::DataInfo(info) => data_info(alloc, info),
        EditorBody::Locations(lines) => locations(alloc, numbering, lines.as_slice()),
        EditorBody::Exception(undefined) => exception(alloc, *undefined),
        EditorBody::Scopes { symbols, words } => scopes(alloc, *symbols, *words),
        EditorBody::Variables(list) => variables(alloc, list.as_slice()),
        EditorBody::Evaluation(value) => evaluation(alloc, value),
        EditorBody::Value(value) => value_set(alloc, value),
        EditorBody::Completions {
            items,
            start,
            length,
        } => {
            let start = numbering.column_told(u64::from(*start));
            completions(alloc, items.as_slice(), start, *length)
        }
        EditorBody::Memory {
            address,
            bytes,
            unreadable,
        } => memory(alloc, *address, bytes.as_slice(), *unreadable),
        EditorBody::NoMemory { address, count } => no_memory(alloc, *address, *count),
        EditorBody::Instructions(list) => instructions(alloc, numbering, list.as_slice()),
        EditorBody::Written(count) => written(alloc, *count),
        EditorBody::Sources(paths) => sources(alloc, paths.as_slice()),
        EditorBody::Targets(target) => targets(alloc, numbering, *target),
    }
}
