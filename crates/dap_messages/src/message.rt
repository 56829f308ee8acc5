//! Messages to an editor.
use base_text::sequence::{Bytes, Sequence};
use base_text::text::Text;
use dap_answers::answer::{Body, StopReason};
use lab_shown::place::PlaceChange;
use lab_shown::shown::CodeLine;

/// Why a breakpoint isn't verified, or isn't on the line that was asked for.
#[derive(Clone, Drop)]
pub enum BreakpointNote {
    /// The line that was asked for has no code.
    Moved { from: u32 },
    /// Neither the line that was asked for nor one below it has code.
    NoCode { line: u32 },
    NotLaunched,
    /// The program is the file with this path.
    OtherProgram(Text),
    /// What is wrong with its condition, its hit condition or its log message.
    Wrong(Text),
    /// One of these isn't a text.
    NotText,
    NoLabel,
    NoAddress,
    TooManyData,
}

/// What an editor asks of a breakpoint beside its place (Debug Adapter Protocol, "SourceBreakpoint").
#[derive(Clone, Drop)]
pub struct BreakpointOptions {
    /// It stops the run only where this is true.
    pub condition: Option<Text>,
    /// And only at the hits that this names.
    pub hit_condition: Option<Text>,
    /// What is told in place of a stop.
    pub log_message: Option<Text>,
}

/// A breakpoint as a response shows it. An event that changes it refers to its number.
#[derive(Drop)]
pub struct PlacedBreakpoint {
    pub id: u32,
    /// `None` for a label that doesn't exist, and for one that isn't on a line.
    pub line: Option<u32>,
    /// Of a breakpoint at an instruction: where PC meets it.
    pub address: Option<u16>,
    /// Its options, which the response doesn't repeat.
    pub options: BreakpointOptions,
    pub is_verified: bool,
    /// A message for the user.
    pub note: Option<BreakpointNote>,
}

/// An opcode that is undefined on the board, and its address.
#[derive(Clone, Copy)]
pub struct UndefinedOpcode {
    pub opcode: u8,
    pub pc: u16,
}

/// A line of the program to which PC can be set.
#[derive(Clone, Copy)]
pub struct GotoTarget {
    /// Where its first statement begins; this is also its number.
    pub address: u16,
    pub line: u32,
}

/// What a data breakpoint would watch (Debug Adapter Protocol, `dataBreakpointInfo`).
#[derive(Drop)]
pub struct DataInfo {
    /// By which it is set; `None` if it can't be watched.
    pub data_id: Option<Text>,
    /// What it is, or why it can't be watched.
    pub description: Text,
}

/// A value as an editor shows it.
#[derive(Drop)]
pub struct ShownValue {
    pub text: Text,
    /// Where a memory window on it begins, if it has one.
    pub memory: Option<u16>,
}

/// A variable as an editor shows it (Debug Adapter Protocol, "Variable").
#[derive(Drop)]
pub struct EditorVariable {
    pub name: Text,
    pub value: ShownValue,
    /// An expression that has this value, by which it can be watched and changed.
    pub expression: Option<Text>,
}

/// What a completion stands for (Debug Adapter Protocol, "CompletionItemType").
#[derive(Clone, Copy)]
pub enum CompletionKind {
    /// A part of the machine: `variable`.
    Part,
    /// A symbol of the program: `reference`.
    Symbol,
    /// A word of the prompt: `keyword`.
    Word,
}

/// A completion of a word (Debug Adapter Protocol, "CompletionItem").
#[derive(Drop)]
pub struct Completion {
    pub label: Text,
    pub kind: CompletionKind,
}

/// The line of a text that an instruction comes from.
#[derive(Drop)]
pub struct InstructionLine {
    /// The text's path.
    pub path: Text,
    /// From 1.
    pub line: usize,
}

/// A line of disassembly as an editor shows it (Debug Adapter Protocol, "DisassembledInstruction").
#[derive(Drop)]
pub struct EditorInstruction {
    pub code: CodeLine,
    /// The label at its address.
    pub symbol: Option<Text>,
    /// Where it comes from, if that is known.
    pub origin: Option<InstructionLine>,
}

/// How the operands of a disassembly are written (Debug Adapter Protocol, `disassemble`: `resolveSymbols`).
#[derive(Clone, Copy)]
pub enum OperandStyle {
    Numbers,
    /// An address that a label has is written as the label.
    Labels,
}

/// How numbers in values are written (Debug Adapter Protocol, "ValueFormat").
#[derive(Clone, Copy)]
pub enum ValueFormat {
    /// As the assembler writes them, `0hhH` or `0hhhhH`.
    Hexadecimal,
    Decimal,
}

/// How an editor counts lines and columns (Debug Adapter Protocol, `initialize`).
#[derive(Clone, Copy)]
pub struct Numbering {
    pub lines_start_at_1: bool,
    pub columns_start_at_1: bool,
}

/// The body of a successful response.
#[derive(Drop)]
pub enum EditorBody {
    /// Of a command that the kernel has too.
    Board(Body),
    /// Of `initialize`: what this debugger supports. From then on lines and columns are counted so.
    Capabilities(Numbering),
    /// Of `setBreakpoints` and the other requests that set breakpoints.
    Breakpoints(Sequence<PlacedBreakpoint>),
    /// Of `dataBreakpointInfo`.
    DataInfo(DataInfo),
    /// Of `breakpointLocations`: their lines.
    Locations(Sequence<u32>),
    /// Of `exceptionInfo`.
    Exception(UndefinedOpcode),
    /// Of `scopes`: how many symbols there are, and how many words on the stack.
    Scopes {
        symbols: u32,
        words: u32,
    },
    /// Of `variables`.
    Variables(Sequence<EditorVariable>),
    /// Of `evaluate`.
    Evaluation(ShownValue),
    /// Of `setVariable` and `setExpression`: the value that is there now.
    Value(ShownValue),
    /// Of `completions`. They replace `length` characters of the text from `start` on, which counts from 1.
    Completions {
        items: Sequence<Completion>,
        start: u32,
        length: u32,
    },
    /// Of `readMemory`: the bytes from this address on, and how many of those requested don't exist.
    Memory {
        address: u16,
        bytes: Bytes,
        unreadable: u32,
    },
    /// Of `readMemory` from an address that doesn't exist: that address, and how many bytes were requested.
    NoMemory {
        address: i64,
        count: u32,
    },
    /// Of `disassemble`.
    Instructions(Sequence<EditorInstruction>),
    /// Of `writeMemory`: the number of bytes.
    Written(u32),
    /// Of `loadedSources`: their paths.
    Sources(Sequence<Text>),
    /// Of `gotoTargets`: at most one.
    Targets(Option<GotoTarget>),
}

/// The outcome of a request.
#[derive(Drop)]
pub enum EditorOutcome {
    Success(EditorBody),
    /// A message for the user.
    Refused(Text),
}

/// An answer to the request with this number and command.
#[derive(Drop)]
pub struct EditorResponse {
    pub request_seq: u32,
    pub command: Text,
    pub outcome: EditorOutcome,
}

/// Why the program stopped.
#[derive(Clone, Copy)]
pub enum EditorStop {
    /// At its start, before its first step.
    Entry,
    /// At its end, after HLT.
    Halted,
    /// At its end, before an undefined opcode.
    Exception(UndefinedOpcode),
    /// Where PC was set.
    Goto,
    Board(StopReason),
}

/// What a breakpoint is on.
#[derive(Clone, Copy)]
pub enum BreakpointKind {
    Line,
    Label,
    /// Data that an instruction has just changed. The values are bytes unless the place is SP or PC.
    Data(PlaceChange),
    Instruction,
}

/// A stop at breakpoints.
#[derive(Drop)]
pub struct BreakpointStop {
    pub kind: BreakpointKind,
    /// The numbers of all breakpoints that stop the program there, each once.
    pub ids: Sequence<u32>,
}

/// The kind of an output.
#[derive(Clone, Copy)]
pub enum OutputCategory {
    /// Of the debugger itself.
    Console,
    /// What the program writes to its console.
    Stdout,
    Stderr,
}

/// A place in a text, line and column from 1.
#[derive(Drop)]
pub struct SourcePlace {
    pub path: Text,
    pub line: u32,
    pub column: u32,
}

/// An event that is sent to an editor (Debug Adapter Protocol, "Events").
#[derive(Drop)]
pub enum EditorEvent {
    Initialized,
    Stopped(EditorStop),
    StoppedAt(BreakpointStop),
    Continued,
    /// Each byte is the character with that code point.
    Output {
        category: OutputCategory,
        bytes: Bytes,
        place: Option<SourcePlace>,
    },
    /// A line that a breakpoint tells in place of a stop, without its end.
    Log {
        text: Text,
        place: SourcePlace,
    },
    /// A breakpoint isn't what it was.
    Breakpoint(PlacedBreakpoint),
    /// What the editor shows of the stack and of variables may have changed.
    Invalidated,
    /// Memory may have changed.
    Memory,
    Exited {
        code: u8,
    },
    Terminated,
}

/// A message to an editor.
#[derive(Drop)]
pub enum Message {
    Response(EditorResponse),
    Event(EditorEvent),
}
