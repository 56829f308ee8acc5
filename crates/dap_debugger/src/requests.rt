//! The request in the body of a message.
ghost use Rattle.std.specs.Prelude.{◌≡◌, IfOk, option_map};
ghost use Rattle.serde_json.specs.View.{view};
ghost use Rattle.dap_debugger.specs.Requests.{json_of, request_of};

use dap_messages::message::Numbering;
use dap_reading::reading::{read_editor_request, unreadable};
use dap_requests::request::EditorRequest;
use serde_json::Value;
use std::alloc::{AllocError, Global};

// The JSON value of a body, if it has one.
fn read_json(alloc: Global, body: &[u8]) -> Result<Option<Value>, AllocError>
    ensures { IfOk result (λ value. option_map view value ≡ json_of body.now) }
{
    match Value::from_slice(alloc, body) {
        Ok(value) => Ok(Some(value)),
        Err(error) if error.is_memory() => Err(AllocError),
        Err(_) => Ok(None),
    }
}

/// The request in a body of an editor that counts so. A body that isn't JSON (RFC 8259), or that nests more
/// than 127 arrays and objects, is read as a request that is no request (`RequestFault::NotRequest`).
pub fn read_request(
    alloc: Global,
    numbering: Numbering,
    body: &[u8],
) -> Result<EditorRequest, AllocError>
    ensures { IfOk result (λ request. request ≡ request_of numbering body.now) }
{
    match read_json(alloc, body)? {
        Some(value) => read_editor_request(alloc, numbering, &value),
        None => Ok(unreadable(alloc)),
    }
}
