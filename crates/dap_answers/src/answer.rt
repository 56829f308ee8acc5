//! Typed answers: responses with their bodies, and events.
ghost use Rattle.std.specs.Prelude.{◌≡◌};

use base_text::sequence::Sequence;
use base_text::text::Text;
use lab_shown::shown::{Breakpoint, CodeLine, SourceBreakpoints, StackFrame, Variable};

/// The state of debugging (Jupyter messaging, `debugInfo`): whether a frontend is attached, whether
/// the thread is stopped, and the sources that have breakpoints.
#[derive(Clone, Drop)]
pub struct DebugState {
    pub is_attached: bool,
    pub is_stopped: bool,
    pub breakpoints: Sequence<SourceBreakpoints>,
}

/// The body of a successful response (Debug Adapter Protocol, "Requests").
#[derive(Clone, Drop)]
pub enum Body {
    /// Of commands that return nothing.
    Empty,
    /// Of `initialize`.
    Capabilities,
    Breakpoints(Sequence<Breakpoint>),
    /// Of `threads`: the one thread.
    Threads,
    /// Some of the frames, and the number of all frames.
    StackTrace {
        frames: Sequence<StackFrame>,
        total: u32,
    },
    /// Of `scopes`: the five of each frame.
    Scopes,
    Variables(Sequence<Variable>),
    /// Of `setVariable`: the new value of the variable.
    Value(Text),
    /// Of `continue`.
    Continued,
    Instructions(Sequence<CodeLine>),
    /// The text of a source.
    Content(Text),
    /// Of `dumpCell`: the path of the cell.
    SourcePath(Text),
    DebugState(DebugState),
}

/// The outcome of a request: done, or refused with a message.
#[derive(Clone, Drop)]
pub enum Outcome {
    Success(Body),
    Refused(Text),
}

/// An answer to the request with this number and command.
#[derive(Clone)]
pub struct Response {
    pub request_seq: u32,
    pub command: Text,
    pub outcome: Outcome,
}

// Written out so that every place that drops a response calls one function.
impl Drop for Response {
    fn drop(self) {
        let Self {
            request_seq: _,
            command: _,
            outcome: _,
        } = self;
    }
}

/// Why the thread stopped.
#[derive(Clone, Copy)]
pub enum StopReason {
    Breakpoint,
    Step,
    Pause,
}

impl StopReason {
    ghost use Rattle.dap_answers.specs.Json.{reason_text};

    /// The text of `reason` in `stopped`.
    pub fn as_str(self) -> &'static str
        ensures { result.now ≡ reason_text self }
    {
        match self {
            StopReason::Breakpoint => "breakpoint",
            StopReason::Step => "step",
            StopReason::Pause => "pause",
        }
    }
}

/// An event that is sent to a frontend (Debug Adapter Protocol, "Events").
#[derive(Clone, Copy)]
pub enum Event {
    Initialized,
    Stopped(StopReason),
    Continued,
}
