//! The JSON of sources, and of frames with their sources.
ghost use Rattle.std.specs.Prelude.{◌≡◌, ◌++◌, Some, IfOk, codes};
ghost use Rattle.serde_json.specs.View.{view};
ghost use Rattle.dap_answers.specs.Object.{HasMembers};
ghost use Rattle.dap_answers.specs.Json.{members_from, object_of, list_of, one_list};
ghost use Rattle.dap_json.specs.Sources.{last_part, text_source, image_name, image_source, source_json};
ghost use Rattle.dap_json.specs.Sources.{bare_frame, source_members, frame_json, stack_trace_json};
ghost use Rattle.dap_json.specs.Json.{board_body_json};

use crate::told::{ToldJson, told_list};
use base_text::text::Text;
use dap_answers::answer::Body;
use dap_answers::bodies::body_json;
use dap_answers::json::reference;
use dap_answers::object::Object;
use dap_messages::file_kind::image_kind;
use dap_messages::message::Numbering;
use lab_shown::shown::StackFrame;
use serde_json::Value;
use std::alloc::{AllocError, Global};

// The part of a path after its last `/`.
fn last_part(path: &str) -> &str
    ensures { result.now ≡ last_part path.now }
{
    match path.rsplit_once('/') {
        Some((_, name)) => name,
        None => path,
    }
}

fn text_source(alloc: Global, path: &str) -> Result<Value, AllocError>
    ensures { IfOk result (λ v. view v ≡ text_source path.now) }
{
    Object::new(alloc)
        .text("name", last_part(path))
        .text("path", path)
        .finish()
}

fn image_name(alloc: Global, path: &str) -> Result<Text, AllocError>
    ensures { IfOk result (λ name. name ≡ image_name path.now) }
{
    let mut name = String::new(alloc);
    name.push_str(last_part(path))?;
    name.push_str(" (disassembly)")?;
    Ok(Text::from(name))
}

fn image_source(alloc: Global, path: &str) -> Result<Value, AllocError>
    ensures { IfOk result (λ v. view v ≡ image_source path.now) }
{
    let name = image_name(alloc, path)?;
    Object::new(alloc)
        .text("name", name.as_str())
        .text("path", path)
        .number("sourceReference", 1)
        .finish()
}

/// The JSON of a source.
pub fn source(alloc: Global, path: &str) -> Result<Value, AllocError>
    ensures { IfOk result (λ v. view v ≡ source_json path.now) }
{
    match image_kind(path) {
        None => text_source(alloc, path),
        Some(_) => image_source(alloc, path),
    }
}

fn every_source(alloc: Global, paths: &[Text]) -> Result<Value, AllocError>
    ensures { IfOk result (λ v. view v ≡ list_of source_json paths.now) }
{
    let mut values = Vec::new(alloc);
    for path in paths {
        values.push(source(alloc, path.as_str())?)?;
    }
    Ok(Value::from(values))
}

/// The JSON of all sources.
pub fn sources(alloc: Global, paths: &[Text]) -> Result<Value, AllocError>
    ensures { IfOk result (λ v. view v ≡ one_list (codes "sources") source_json paths.now) }
{
    let values = every_source(alloc, paths)?;
    Object::new(alloc).value("sources", values).finish()
}

// The members of every frame, with a source or without one.
fn bare_frame(alloc: Global, numbering: Numbering, frame: &StackFrame) -> Result<Object, AllocError>
    ensures { IfOk result (λ o. HasMembers o (members_from (bare_frame numbering frame.now))) }
{
    let address = reference(alloc, frame.address)?;
    Ok(
        Object::new(alloc)
            .value("instructionPointerReference", address)
            .number("id", u64::from(frame.id))
            .text("name", frame.name.as_str())
            .number("line", numbering.line_told(frame.line as u64))
            .number("column", numbering.column_told(1)),
    )
}

fn frame_with_source(
    alloc: Global,
    numbering: Numbering,
    frame: &StackFrame,
    path: &str,
) -> Result<Value, AllocError>
    ensures { IfOk result
        (λ v. view v ≡ object_of (bare_frame numbering frame.now ++ source_members (Some path.now))) }
{
    let source = source(alloc, path)?;
    bare_frame(alloc, numbering, frame)?
        .value("source", source)
        .finish()
}

impl ToldJson for StackFrame {
    ghost json = { frame_json };

    #[tactic(auto, unfolding(crate::specs::Sources::frame_json))]
    fn told_json(&self, alloc: Global, numbering: Numbering) -> Result<Value, AllocError> {
        match &self.source {
            None => bare_frame(alloc, numbering, self)?.finish(),
            Some(path) => frame_with_source(alloc, numbering, self, path.as_str()),
        }
    }
}

fn stack_trace(
    alloc: Global,
    numbering: Numbering,
    frames: &[StackFrame],
    total: u32,
) -> Result<Value, AllocError>
    ensures { IfOk result (λ v. view v ≡ stack_trace_json numbering frames.now total) }
{
    let values = told_list(alloc, numbering, frames)?;
    Object::new(alloc)
        .value("stackFrames", values)
        .number("totalFrames", u64::from(total))
        .finish()
}

/// The JSON of a body that the kernel has too: frames with their sources' names, and others as the kernel's.
pub fn board_body(alloc: Global, numbering: Numbering, body: &Body) -> Result<Value, AllocError>
    ensures { IfOk result (λ v. view v ≡ board_body_json numbering body.now) }
{
    match body {
        Body::StackTrace { frames, total } => {
            stack_trace(alloc, numbering, frames.as_slice(), *total)
        }
        _ => body_json(alloc, body),
    }
}
