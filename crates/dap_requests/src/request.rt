//! Requests of an editor.
ghost use Rattle.std.specs.Prelude.{◌≡◌};

use crate::offset::SignedOffset;
use base_text::sequence::{Bytes, Sequence};
use base_text::text::Text;
use dap_messages::message::{BreakpointOptions, Numbering, OperandStyle, ValueFormat};
use lab_shown::step::{Granularity, StepKind};

/// Where the editor shows the value of an expression (Debug Adapter Protocol, `evaluate`).
#[derive(Clone, Copy)]
pub enum EvaluateContext {
    /// A line typed at the debugger's prompt.
    Repl,
    /// An expression that the editor watches.
    Watch,
    /// A hover, or anything else that only looks.
    Other,
}

/// The events that an editor understands beside those that each must (Debug Adapter Protocol, `initialize`).
#[derive(Clone, Copy)]
pub struct SupportedEvents {
    pub invalidated: bool,
    pub memory: bool,
}

/// What is to be debugged, and how.
#[derive(Drop)]
pub struct Launch {
    /// The path of the program's text, as the editor gave it.
    pub program: Text,
    /// The same file's canonical path, if it has one; otherwise the same path.
    pub canonical: Text,
    pub stops_on_entry: bool,
    /// Whether the program can still be looked at where its run ends.
    pub stops_at_end: bool,
    /// False if the editor wants a run without debugging.
    pub is_debugged: bool,
    /// Whether the opcodes that Intel leaves undefined act as aliases of defined ones.
    pub has_aliases: bool,
    /// The front panel's eight switches.
    pub switches: u8,
    /// What is typed on the board's keyboard before the program's first step.
    pub input: Text,
    /// Whether the prompt's words act in the context `watch` too, for editors whose console evaluates so, as
    /// Kate's.
    pub has_watch_commands: bool,
    /// Where the bytes of a program that is bytes begin.
    pub origin: u16,
    /// Where a program without source starts, whatever its file says.
    pub start: Option<u16>,
}

/// A breakpoint on a line of a source.
#[derive(Drop)]
pub struct LineBreakpoint {
    pub line: u32,
    pub options: BreakpointOptions,
    /// Whether those that it has are texts.
    pub has_texts: bool,
}

/// A breakpoint at a label.
#[derive(Drop)]
pub struct FunctionBreakpoint {
    pub name: Text,
    pub options: BreakpointOptions,
    /// Whether those that it has are texts.
    pub has_texts: bool,
}

/// What an editor asks about a data breakpoint (Debug Adapter Protocol, `dataBreakpointInfo`).
#[derive(Drop)]
pub struct DataQuery {
    /// The scope in which the name is one of a variable; 0 if it is an expression.
    pub scope: u32,
    pub name: Text,
    /// How many bytes, if it is in memory.
    pub count: u32,
    /// Whether the name is an address.
    pub is_address: bool,
}

/// A breakpoint where a place is changed.
#[derive(Drop)]
pub struct DataBreakpoint {
    pub data_id: Text,
    /// There is no log message among them.
    pub options: BreakpointOptions,
    /// False if it is for reads too.
    pub is_write: bool,
    /// Whether those options that it has are texts.
    pub has_texts: bool,
}

/// A breakpoint at an instruction.
#[derive(Drop)]
pub struct InstructionBreakpoint {
    /// Where the instruction begins; `None` if there is no such address.
    pub address: Option<u16>,
    /// There is no log message among them.
    pub options: BreakpointOptions,
    /// Whether those that it has are texts.
    pub has_texts: bool,
}

/// The ends of a run at which an editor wants it held (Debug Adapter Protocol, `setExceptionBreakpoints`).
#[derive(Clone, Copy)]
pub struct ExceptionFilters {
    /// An undefined opcode.
    pub undefined: bool,
    /// HLT with interrupts off.
    pub halt: bool,
}

/// What an editor shows of variables and expressions, and how it changes them.
#[derive(Drop)]
pub enum VariablesCommand {
    /// Of a frame.
    Scopes {
        frame: u32,
    },
    /// `count` variables of a scope, from the one with the index `start` on. If `count` is 0, those that the
    /// scope shows by default.
    Variables {
        reference: u32,
        start: u32,
        count: u32,
        format: ValueFormat,
    },
    SetVariable {
        reference: u32,
        name: Text,
        value: Text,
        format: ValueFormat,
    },
    SetExpression {
        expression: Text,
        value: Text,
        format: ValueFormat,
    },
    /// Of the word before a column of a text, from 1.
    Completions {
        text: Text,
        column: u32,
    },
}

/// A request that loads a program, for which its file is read.
#[derive(Drop)]
pub enum LoadCommand {
    Launch(Launch),
    /// With the launch as it is configured now, if that has changed.
    Restart(Option<Launch>),
}

/// A command of the kernel that editors send too, with the same arguments (dap_talk's `DapCommand`).
#[derive(Drop)]
pub enum BoardCommand {
    Attach,
    Disconnect,
    ConfigurationDone,
    Threads,
    StackTrace {
        start_frame: u32,
        levels: u32,
    },
    Continue,
    Step {
        kind: StepKind,
        granularity: Granularity,
    },
    Pause,
    Source(Text),
    DumpCell(Text),
    DebugInfo,
    InspectVariables,
    BoardSwitches(u8),
    BoardPress(u8),
    BoardType(Text),
    BoardReset,
    BoardAliases(bool),
}

/// What an editor asks of a source.
#[derive(Drop)]
pub enum SourceCommand {
    /// Its breakpoints, at most 256, in the order of the request.
    SetBreakpoints(Sequence<LineBreakpoint>),
    /// Where it can have breakpoints, from the first line to the last.
    BreakpointLocations { first: u32, last: u32 },
    GotoTargets { line: u32 },
}

/// Breakpoints that aren't on the lines of a source.
#[derive(Drop)]
pub enum BreakpointsCommand {
    /// Those at labels, at most 256, in the order of the request.
    SetFunctionBreakpoints(Sequence<FunctionBreakpoint>),
    SetExceptionBreakpoints(ExceptionFilters),
    DataBreakpointInfo(DataQuery),
    /// Those where places are changed, at most 256, in the order of the request.
    SetDataBreakpoints(Sequence<DataBreakpoint>),
    /// Those at instructions, at most 256, in the order of the request.
    SetInstructionBreakpoints(Sequence<InstructionBreakpoint>),
}

/// Memory, and the code in it.
#[derive(Drop)]
pub enum MemoryCommand {
    /// At most `count` bytes, from `offset` bytes after or before an address.
    ReadMemory {
        address: u16,
        offset: SignedOffset,
        count: u32,
    },
    /// At most 65,536 bytes.
    WriteMemory {
        address: u16,
        offset: SignedOffset,
        bytes: Bytes,
    },
    /// 1 to 1,024 instructions. `offset` counts bytes, and `instruction_offset` instructions, at most 65,536
    /// of them backwards.
    Disassemble {
        address: u16,
        offset: SignedOffset,
        instruction_offset: SignedOffset,
        instruction_count: u16,
        operands: OperandStyle,
    },
}

/// A command that only editors have, or that has more arguments for them than for the kernel.
#[derive(Drop)]
pub enum EditorCommand {
    /// With how the editor counts lines and columns from the response on.
    Initialize {
        supported: SupportedEvents,
        numbering: Numbering,
    },
    Terminate,
    ExceptionInfo,
    Evaluate {
        expression: Text,
        context: EvaluateContext,
        format: ValueFormat,
    },
    LoadedSources,
    /// Back by one place.
    StepBack(Granularity),
    ReverseContinue,
    /// To the address that is the number of a target.
    Goto {
        target: u16,
    },
    /// A command about the source with this path.
    OnSource {
        path: Text,
        command: SourceCommand,
    },
    Breakpoints(BreakpointsCommand),
    Memory(MemoryCommand),
    Variables(VariablesCommand),
}

/// Why a request can't be carried out, whatever the program is.
#[derive(Drop)]
pub enum RequestFault {
    /// Not JSON, or not an object with the type `request`, a number and a command.
    NotRequest,
    UnknownCommand,
    /// An argument of a command that the kernel has too is missing, of the wrong type, or out of its bounds.
    Arguments,
    /// The argument with this name is.
    Argument(Text),
}

/// What a request asks for.
#[derive(Drop)]
pub enum RequestContent {
    Load(LoadCommand),
    Board(BoardCommand),
    Editor(EditorCommand),
    Faulty(RequestFault),
}

/// A request: its number and the text of its command, which its response repeats, and what it asks for. If a
/// value isn't a request, the number is 0 and the command is empty.
pub struct EditorRequest {
    pub seq: u32,
    pub command: Text,
    pub asked: RequestContent,
}

// Written out so that every place that drops it calls one function.
impl Drop for EditorRequest {
    fn drop(self) {
        let Self {
            seq: _,
            command: _,
            asked: _,
        } = self;
    }
}

impl EditorRequest {
    /// Its number, the text of its command, and what it asks for.
    pub fn into_parts(self) -> (u32, Text, RequestContent)
        ensures { result ≡ (self.seq, self.command, self.asked) }
    {
        let Self {
            seq,
            command,
            asked,
        } = self;
        (seq, command, asked)
    }
}
