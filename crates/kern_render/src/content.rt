//! The JSON of contents.
ghost use Rattle.std.specs.Prelude.{◌≡◌, IfOk};
ghost use Rattle.serde_json.specs.View.{view};
ghost use Rattle.kern_render.specs.Json.{content_json};

use crate::errors::{error, error_reply};
use crate::notices::{comm_close, execute_input, input_request, status, stream};
use crate::replies::{
    comm_info, complete, execute_reply, history, inspect, interrupt, is_complete, kernel_info,
    shutdown,
};
use dap_answers::sending::{event, response};
use kern_post::content::{Cause, Content};
use serde_json::Value;
use std::alloc::{AllocError, Global};

/// The JSON object of the content of a post. The post's number is the `seq` of a debug reply and of a debug
/// event (Jupyter messaging, "Debug request", "Debug event").
pub fn content_json(alloc: Global, number: u64, content: &Content) -> Result<Value, AllocError>
    ensures { IfOk result (λ v. view v ≡ content_json number content.now) }
{
    match content {
        Content::Status(state) => status(alloc, *state),
        Content::ExecuteInput { code, count } => execute_input(alloc, code.as_str(), *count),
        Content::Stream(bytes) => stream(alloc, bytes.as_slice()),
        Content::InputRequest => input_request(alloc),
        Content::Error(cause) => error(alloc, *cause),
        Content::CommClose { comm_id } => comm_close(alloc, comm_id.as_str()),
        Content::DebugEvent(debug_event) => event(alloc, number, *debug_event),
        Content::KernelInfoReply => kernel_info(alloc),
        Content::ExecuteReply { count, ending } => execute_reply(alloc, *count, *ending),
        Content::IsCompleteReply(completeness) => is_complete(alloc, *completeness),
        Content::CompleteReply { cursor_pos } => complete(alloc, *cursor_pos),
        Content::InspectReply => inspect(alloc),
        Content::HistoryReply => history(alloc),
        Content::CommInfoReply => comm_info(alloc),
        Content::ShutdownReply { restarts } => shutdown(alloc, *restarts),
        Content::InterruptReply => interrupt(alloc),
        Content::DebugReply(answer) => response(alloc, number, answer),
        Content::BadContentReply(_) => error_reply(alloc, Cause::BadContent),
    }
}
