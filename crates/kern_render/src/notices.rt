//! The content of what is published on iopub, but for errors, and of the request for input.
ghost use Rattle.std.specs.Prelude.{◌≡◌, IfOk};
ghost use Rattle.serde_json.specs.View.{view};
ghost use Rattle.kern_render.specs.Json.{state_text, status_json, execute_input_json, stream_json};
ghost use Rattle.kern_render.specs.Json.{input_request_json, comm_close_json};

use base_text::latin::to_text;
use dap_answers::object::Object;
use kern_post::content::ExecutionState;
use serde_json::Value;
use std::alloc::{AllocError, Global};

fn state_text(state: ExecutionState) -> &'static str
    ensures { result.now ≡ state_text state }
{
    match state {
        ExecutionState::Busy => "busy",
        ExecutionState::Idle => "idle",
    }
}

/// The content of `status` (Jupyter messaging, "Kernel status").
pub(crate) fn status(alloc: Global, state: ExecutionState) -> Result<Value, AllocError>
    ensures { IfOk result (λ v. view v ≡ status_json state) }
{
    Object::new(alloc)
        .text("execution_state", state_text(state))
        .finish()
}

/// The content of `execute_input` (Jupyter messaging, "Code inputs").
pub(crate) fn execute_input(alloc: Global, code: &str, count: u64) -> Result<Value, AllocError>
    ensures { IfOk result (λ v. view v ≡ execute_input_json code.now count) }
{
    Object::new(alloc)
        .text("code", code)
        .number("execution_count", count)
        .finish()
}

/// The content of `stream` (Jupyter messaging, "Streams (stdout, stderr, etc)"), of bytes in Latin-1.
pub(crate) fn stream(alloc: Global, bytes: &[u8]) -> Result<Value, AllocError>
    ensures { IfOk result (λ v. view v ≡ stream_json bytes.now) }
{
    let text = to_text(alloc, bytes)?;
    Object::new(alloc)
        .text("name", "stdout")
        .value("text", Value::from(text))
        .finish()
}

/// The content of `input_request` (Jupyter messaging, "Messages on the stdin (ROUTER/DEALER) channel").
pub(crate) fn input_request(alloc: Global) -> Result<Value, AllocError>
    ensures { IfOk result (λ v. view v ≡ input_request_json) }
{
    Object::new(alloc)
        .flag("password", false)
        .text("prompt", "")
        .finish()
}

/// The content of `comm_close` (Jupyter messaging, "Tearing Down Comms").
pub(crate) fn comm_close(alloc: Global, comm_id: &str) -> Result<Value, AllocError>
    ensures { IfOk result (λ v. view v ≡ comm_close_json comm_id.now) }
{
    Object::new(alloc)
        .text("comm_id", comm_id)
        .empty_object("data")
        .finish()
}
