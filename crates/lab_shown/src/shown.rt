//! What a board shows.
use base_text::sequence::{Bytes, Sequence};
use base_text::text::Text;

/// A frame of the run.
#[derive(Clone, Drop)]
pub struct StackFrame {
    /// 1 for the innermost frame, and one more for each further out.
    pub id: u32,
    /// The routine: its first label, or its address as `hhhhH`; `main` for the outermost frame.
    pub name: Text,
    /// The path of the text that the byte at the address was loaded from, if it was.
    pub source: Option<Text>,
    /// The line in that text, from 1; 0 without a text.
    pub line: usize,
    /// PC for the innermost frame, and the call's address for the others.
    pub address: u16,
}

/// A variable as it is shown.
#[derive(Clone, Drop)]
pub struct Variable {
    pub name: Text,
    pub value: Text,
}

/// A line of disassembly.
#[derive(Clone, Drop)]
pub struct CodeLine {
    pub address: u16,
    /// The bytes that it shows, 1 to 3.
    pub bytes: Bytes,
    /// An instruction, as `MVI A,06CH`, or a byte that is no instruction, as `DB 008H`.
    pub text: Text,
}

/// A line that was set as a breakpoint, and whether its text has that line.
#[derive(Clone, Copy)]
pub struct Breakpoint {
    pub line: u32,
    pub is_verified: bool,
}

/// The breakpoints of a source.
#[derive(Clone, Drop)]
pub struct SourceBreakpoints {
    pub path: Text,
    pub lines: Sequence<u32>,
}

/// What a board shows.
#[derive(Drop)]
pub enum Shown {
    /// Some of the frames, innermost first, and the number of all.
    Frames {
        frames: Sequence<StackFrame>,
        total: u32,
    },
    Scopes,
    Variables(Sequence<Variable>),
    Code(Sequence<CodeLine>),
    Source(Text),
    Info {
        is_attached: bool,
        is_stopped: bool,
        breakpoints: Sequence<SourceBreakpoints>,
    },
}
