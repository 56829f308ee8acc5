//! The contents of posts.
ghost use Rattle.std.specs.Prelude.{◌≡◌, IfOk};

use asm_syntax::fault::AsmFault;
use base_text::sequence::Bytes;
use base_text::text::Text;
use dap_answers::answer::{Event, Response};
use std::alloc::AllocError;

/// Whether the kernel is working on a request (Jupyter messaging, "Kernel status").
#[derive(Clone, Copy)]
pub enum ExecutionState {
    Busy,
    Idle,
}

/// Why a request failed.
#[derive(Clone, Copy)]
pub enum Cause {
    /// The cell doesn't assemble.
    Assembly(AsmFault),
    /// The run came to an undefined opcode, at address `pc`.
    UndefinedOpcode { opcode: u8, pc: u16 },
    /// The run was interrupted.
    Interrupted,
    /// The board was reset during the run.
    Reset,
    /// The most executions that can wait are waiting already.
    QueueFull,
    /// The content of the request isn't an object, or has a required member missing or wrong.
    BadContent,
    /// The board keeps another text under the cell's path.
    SourceNameTaken,
    /// The board keeps the most texts that it can.
    SourcesFull,
}

/// How an execution ended.
#[derive(Clone, Copy)]
pub enum Ending {
    Done,
    Failed(Cause),
}

/// Whether the text of a cell is complete (Jupyter messaging, "Code completeness").
#[derive(Clone, Copy)]
pub enum Completeness {
    Complete,
    /// The text only lacks an ENDIF.
    Incomplete,
    Invalid,
}

/// The requests other than execute_request that get an error reply if their content is bad.
#[derive(Clone, Copy)]
pub enum RefusedRequest {
    IsComplete,
    Complete,
    Shutdown,
}

/// The content of a post, which also determines its type.
#[derive(Drop)]
pub enum Content {
    Status(ExecutionState),
    ExecuteInput { code: Text, count: u64 },
    /// The program's output to the console, in Latin-1.
    Stream(Bytes),
    /// The program asks the user for a line of input.
    InputRequest,
    Error(Cause),
    CommClose { comm_id: Text },
    DebugEvent(Event),
    KernelInfoReply,
    ExecuteReply { count: u64, ending: Ending },
    IsCompleteReply(Completeness),
    CompleteReply { cursor_pos: u64 },
    InspectReply,
    HistoryReply,
    CommInfoReply,
    ShutdownReply { restarts: bool },
    InterruptReply,
    DebugReply(Response),
    /// The error reply to a request whose content is bad.
    BadContentReply(RefusedRequest),
}

impl RefusedRequest {
    ghost use Rattle.std.specs.Prelude.{◌≡◌};
    ghost use Rattle.kern_post.specs.Topics.{refused_topic};

    /// The type of the reply (`msg_type`).
    pub fn topic(self) -> &'static str
        ensures { result.now ≡ refused_topic self }
    {
        match self {
            RefusedRequest::IsComplete => "is_complete_reply",
            RefusedRequest::Complete => "complete_reply",
            RefusedRequest::Shutdown => "shutdown_reply",
        }
    }
}

// Contents with data on the heap are copied apart, so that `copy` has no early returns.
fn copy_of_input(code: &Text, count: u64) -> Result<Content, AllocError>
    ensures { IfOk result (λ copy. copy ≡ Content.ExecuteInput code.now count) }
{
    let code = code.clone()?;
    Ok(Content::ExecuteInput { code, count })
}

fn copy_of_stream(bytes: &Bytes) -> Result<Content, AllocError>
    ensures { IfOk result (λ copy. copy ≡ Content.Stream bytes.now) }
{
    let bytes = bytes.clone()?;
    Ok(Content::Stream(bytes))
}

fn copy_of_close(comm_id: &Text) -> Result<Content, AllocError>
    ensures { IfOk result (λ copy. copy ≡ Content.CommClose comm_id.now) }
{
    let comm_id = comm_id.clone()?;
    Ok(Content::CommClose { comm_id })
}

fn copy_of_reply(response: &Response) -> Result<Content, AllocError>
    ensures { IfOk result (λ copy. copy ≡ Content.DebugReply response.now) }
{
    let response = response.clone()?;
    Ok(Content::DebugReply(response))
}

impl Content {
    ghost use Rattle.std.specs.Prelude.{◌≡◌, IfOk};
    ghost use Rattle.kern_post.specs.Topics.{topic_of};

    /// A copy. Only a content with data on the heap can fail.
    pub fn copy(&self) -> Result<Content, AllocError>
        ensures { IfOk result (λ copy. copy ≡ self.now) }
    {
        match self {
            Content::ExecuteInput { code, count } => copy_of_input(code, *count),
            Content::Stream(bytes) => copy_of_stream(bytes),
            Content::CommClose { comm_id } => copy_of_close(comm_id),
            Content::DebugReply(response) => copy_of_reply(response),
            Content::Status(state) => Ok(Content::Status(*state)),
            Content::InputRequest => Ok(Content::InputRequest),
            Content::Error(cause) => Ok(Content::Error(*cause)),
            Content::DebugEvent(event) => Ok(Content::DebugEvent(*event)),
            Content::KernelInfoReply => Ok(Content::KernelInfoReply),
            Content::ExecuteReply { count, ending } => Ok(Content::ExecuteReply {
                count: *count,
                ending: *ending,
            }),
            Content::IsCompleteReply(completeness) => Ok(Content::IsCompleteReply(*completeness)),
            Content::CompleteReply { cursor_pos } => Ok(Content::CompleteReply {
                cursor_pos: *cursor_pos,
            }),
            Content::InspectReply => Ok(Content::InspectReply),
            Content::HistoryReply => Ok(Content::HistoryReply),
            Content::CommInfoReply => Ok(Content::CommInfoReply),
            Content::ShutdownReply { restarts } => Ok(Content::ShutdownReply {
                restarts: *restarts,
            }),
            Content::InterruptReply => Ok(Content::InterruptReply),
            Content::BadContentReply(request) => Ok(Content::BadContentReply(*request)),
        }
    }

    /// The type of the post (Jupyter messaging, "General Message Format": `msg_type`), which is also its
    /// topic on iopub.
    pub fn topic(&self) -> &'static str
        ensures { result.now ≡ topic_of self.now }
    {
        match self {
            Content::Status(_) => "status",
            Content::ExecuteInput { .. } => "execute_input",
            Content::Stream(_) => "stream",
            Content::InputRequest => "input_request",
            Content::Error(_) => "error",
            Content::CommClose { .. } => "comm_close",
            Content::DebugEvent(_) => "debug_event",
            Content::KernelInfoReply => "kernel_info_reply",
            Content::ExecuteReply { .. } => "execute_reply",
            Content::IsCompleteReply(_) => "is_complete_reply",
            Content::CompleteReply { .. } => "complete_reply",
            Content::InspectReply => "inspect_reply",
            Content::HistoryReply => "history_reply",
            Content::CommInfoReply => "comm_info_reply",
            Content::ShutdownReply { .. } => "shutdown_reply",
            Content::InterruptReply => "interrupt_reply",
            Content::DebugReply(_) => "debug_reply",
            Content::BadContentReply(request) => request.topic(),
        }
    }
}
