//! The JSON of bodies.
ghost use Rattle.std.specs.Prelude.{◌≡◌, [], ◌∷◌, IfOk, true, codes};
ghost use Rattle.serde_json.specs.Data.{array, item, no_items, string, boolean};
ghost use Rattle.serde_json.specs.View.{view};
ghost use Rattle.dap_answers.specs.Json.{object_of, one_list, thread_json, scope_json, scope_of};
ghost use Rattle.dap_answers.specs.Json.{threads_json, capabilities_json, debug_state_json};
ghost use Rattle.dap_answers.specs.Json.{stopped_threads, stack_trace_json, body_json};

use crate::answer::{Body, DebugState};
use crate::cell::{PREFIX, SUFFIX};
use crate::json::{ToJson, array_of};
use crate::object::Object;
use lab_shown::scope::Scope;
use lab_shown::shown::StackFrame;
use serde_json::Value;
use std::alloc::{AllocError, Global};

fn capabilities(alloc: Global) -> Result<Value, AllocError>
    ensures { IfOk result (λ v. view v ≡ capabilities_json) }
{
    Object::new(alloc)
        .flag("supportsConfigurationDoneRequest", true)
        .flag("supportsDisassembleRequest", true)
        .flag("supportsSetVariable", true)
        .flag("supportsSteppingGranularity", true)
        .finish()
}

fn array_of_one(alloc: Global, value: Value) -> Result<Value, AllocError>
    ensures { IfOk result (λ v. view v ≡ array (item (view value) no_items)) }
{
    let mut values = Vec::new(alloc);
    values.push(value)?;
    Ok(Value::from(values))
}

fn thread(alloc: Global) -> Result<Value, AllocError>
    ensures { IfOk result (λ v. view v ≡ thread_json) }
{
    Object::new(alloc)
        .number("id", 1)
        .text("name", "8080")
        .finish()
}

fn threads(alloc: Global) -> Result<Value, AllocError>
    ensures { IfOk result (λ v. view v ≡ threads_json) }
{
    let threads = array_of_one(alloc, thread(alloc)?)?;
    Object::new(alloc).value("threads", threads).finish()
}

fn scope_json(alloc: Global, name: &str, scope: Scope, expensive: bool) -> Result<Value, AllocError>
    ensures { IfOk result (λ v. view v ≡ scope_json name.now scope expensive) }
{
    Object::new(alloc)
        .text("name", name)
        .number("variablesReference", u64::from(scope.reference()))
        .flag("expensive", expensive)
        .finish()
}

const EVERY_SCOPE: [Scope; 5] = [
    Scope::Registers,
    Scope::Flags,
    Scope::Devices,
    Scope::Symbols,
    Scope::Memory,
];

impl ToJson for Scope {
    ghost json = { scope_of };

    fn to_json(&self, alloc: Global) -> Result<Value, AllocError> {
        match self {
            Scope::Registers => scope_json(alloc, "Registers", *self, false),
            Scope::Flags => scope_json(alloc, "Flags", *self, false),
            Scope::Devices => scope_json(alloc, "Devices", *self, false),
            Scope::Symbols => scope_json(alloc, "Symbols", *self, false),
            Scope::Memory => scope_json(alloc, "Memory", *self, true),
        }
    }
}

fn stopped_threads(alloc: Global, is_stopped: bool) -> Result<Value, AllocError>
    ensures { IfOk result (λ v. view v ≡ stopped_threads is_stopped) }
{
    if is_stopped {
        array_of_one(alloc, Value::from(1u32))
    } else {
        Ok(Value::from(Vec::new(alloc)))
    }
}

fn debug_state(alloc: Global, state: &DebugState) -> Result<Value, AllocError>
    ensures { IfOk result (λ v. view v ≡ debug_state_json state.now) }
{
    let breakpoints = array_of(alloc, state.breakpoints.as_slice())?;
    let stopped = stopped_threads(alloc, state.is_stopped)?;
    Object::new(alloc)
        .value("breakpoints", breakpoints)
        .value("stoppedThreads", stopped)
        .empty_list("exceptionPaths")
        .text("hashMethod", "Murmur2")
        .number("hashSeed", 0)
        .text("tmpFilePrefix", PREFIX)
        .text("tmpFileSuffix", SUFFIX)
        .flag("isStarted", state.is_attached)
        .flag("richRendering", false)
        .finish()
}

fn stack_trace(alloc: Global, frames: &[StackFrame], total: u32) -> Result<Value, AllocError>
    ensures { IfOk result (λ v. view v ≡ stack_trace_json frames.now total) }
{
    let frames = array_of(alloc, frames)?;
    Object::new(alloc)
        .value("stackFrames", frames)
        .number("totalFrames", u64::from(total))
        .finish()
}

fn one_list<T: ToJson>(alloc: Global, key: &str, items: &[T]) -> Result<Value, AllocError>
    ensures { IfOk result (λ v. view v ≡ one_list key.now T.json items.now) }
{
    let items = array_of(alloc, items)?;
    Object::new(alloc).value(key, items).finish()
}

fn one_text(alloc: Global, key: &str, text: &str) -> Result<Value, AllocError>
    ensures { IfOk result (λ v. view v ≡ object_of ((key.now, string text.now) ∷ [])) }
{
    Object::new(alloc).text(key, text).finish()
}

fn continue_body(alloc: Global) -> Result<Value, AllocError>
    ensures { IfOk result (λ v. view v ≡ object_of ((codes "allThreadsContinued", boolean true) ∷ [])) }
{
    Object::new(alloc)
        .flag("allThreadsContinued", true)
        .finish()
}

/// The JSON of a body.
pub fn body_json(alloc: Global, body: &Body) -> Result<Value, AllocError>
    ensures { IfOk result (λ v. view v ≡ body_json body.now) }
{
    match body {
        Body::Empty => Object::new(alloc).finish(),
        Body::Capabilities => capabilities(alloc),
        Body::Breakpoints(list) => one_list(alloc, "breakpoints", list.as_slice()),
        Body::Threads => threads(alloc),
        Body::StackTrace { frames, total } => stack_trace(alloc, frames.as_slice(), *total),
        Body::Scopes => one_list(alloc, "scopes", &EVERY_SCOPE),
        Body::Variables(list) => one_list(alloc, "variables", list.as_slice()),
        Body::Value(text) => one_text(alloc, "value", text.as_str()),
        Body::Continued => continue_body(alloc),
        Body::Instructions(list) => one_list(alloc, "instructions", list.as_slice()),
        Body::Content(text) => one_text(alloc, "content", text.as_str()),
        Body::SourcePath(path) => one_text(alloc, "sourcePath", path.as_str()),
        Body::DebugState(state) => debug_state(alloc, state),
    }
}
