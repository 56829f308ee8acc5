//! Requests.

use base_text::sequence::{Bytes, Frames};
use base_text::text::Text;
use dap_answers::answer::Response;
use dap_talk::command::DapRequest;

/// What an execute_request asks for.
#[derive(Drop)]
pub struct ExecuteRequest {
    pub code: Text,
    /// If set, neither the cell nor its output nor an error is published on iopub.
    pub is_silent: bool,
    /// If set, the execution is counted, unless it is silent.
    pub stores_history: bool,
    /// If set, the program may ask the user for a line of input.
    pub allows_stdin: bool,
}

/// The requests of which the kernel needs some members of the content.
#[derive(Clone, Copy)]
pub enum NeedyRequest {
    Execute,
    IsComplete,
    Complete,
    CommOpen,
    Shutdown,
    InputReply,
}

/// What a request asks for (Jupyter messaging 5.4, "Messages on the shell channel" and the sections
/// that follow it).
#[derive(Drop)]
pub enum RequestBody {
    KernelInfo,
    Execute(ExecuteRequest),
    IsComplete { code: Text },
    Complete { cursor_pos: u64 },
    Inspect,
    History,
    CommInfo,
    CommOpen { comm_id: Text },
    Shutdown { restarts: bool },
    Interrupt,
    /// A debug request that can be carried out.
    Debug(DapRequest),
    /// The response to a debug request that can't be carried out.
    BadDebug(Response),
    /// The line that the user typed, in Latin-1 and with a line feed at its end. Characters above FFh are
    /// `?`.
    InputReply { typed: Bytes },
    /// A request whose content isn't an object, or has a required member missing or wrong.
    BadContent(NeedyRequest),
    /// A message of a type that its channel doesn't have.
    Unknown,
}

/// A request: what it asks for, and the frames of its message that the replies repeat.
#[derive(Drop)]
pub struct Request {
    pub body: RequestBody,
    /// The identities, which stand before the delimiter.
    pub identities: Frames,
    /// The header frame, which becomes the parent header of the replies.
    pub header: Bytes,
}
