//! Typed requests.
ghost use Rattle.std.specs.Prelude.{◌≡◌, IfSome};
ghost use Rattle.dap_talk.specs.Table.{spelling_of, first_named, step_name};

use base_text::sequence::Sequence;
use base_text::text::Text;
use lab_shown::step::{Granularity, StepKind};

/// The commands of debug requests.
#[derive(Clone, Copy, PartialEq, Eq)]
pub enum CommandName {
    Initialize,
    Attach,
    Disconnect,
    ConfigurationDone,
    SetBreakpoints,
    Threads,
    StackTrace,
    Scopes,
    Variables,
    SetVariable,
    Continue,
    Next,
    StepIn,
    StepOut,
    Pause,
    Disassemble,
    Source,
    DumpCell,
    DebugInfo,
    InspectVariables,
    BoardSwitches,
    BoardPress,
    BoardType,
    BoardReset,
    BoardAliases,
}

// The name of the command for this kind of step.
fn step_name(kind: StepKind) -> CommandName
    ensures { result ≡ step_name kind }
{
    match kind {
        StepKind::Over => CommandName::Next,
        StepKind::In => CommandName::StepIn,
        StepKind::Out => CommandName::StepOut,
    }
}

/// A command with its arguments.
#[derive(Drop)]
pub enum DapCommand {
    Initialize,
    Attach,
    Disconnect,
    ConfigurationDone,
    /// The lines of a source at which to set breakpoints, at most 256, in the order of the request.
    SetBreakpoints {
        path: Text,
        lines: Sequence<u32>,
    },
    Threads,
    StackTrace {
        start_frame: u32,
        levels: u32,
    },
    Scopes {
        frame_id: u32,
    },
    Variables {
        reference: u32,
        start: u32,
        count: u32,
    },
    /// `value` is the text of the new value of the variable with this name.
    SetVariable {
        reference: u32,
        name: Text,
        value: Text,
    },
    Continue,
    Step {
        kind: StepKind,
        granularity: Granularity,
    },
    Pause,
    /// 1 to 256 instructions. `offset` counts bytes, and `instruction_offset` instructions.
    Disassemble {
        address: u16,
        offset: u32,
        instruction_offset: u32,
        instruction_count: u16,
    },
    Source {
        path: Text,
    },
    DumpCell {
        code: Text,
    },
    DebugInfo,
    InspectVariables,
    BoardSwitches {
        value: u8,
    },
    BoardPress {
        vector: u8,
    },
    BoardType {
        text: Text,
    },
    BoardReset,
    /// Whether the opcodes that Intel leaves undefined act as aliases of defined ones.
    BoardAliases {
        aliases: bool,
    },
}

/// A request: its number, to which the response refers, and its command.
pub struct DapRequest {
    pub seq: u32,
    pub command: DapCommand,
}

// Written out so that every place that drops a request calls one function.
impl Drop for DapRequest {
    fn drop(self) {
        let Self { seq: _, command: _ } = self;
    }
}

impl DapRequest {
    /// The command alone.
    pub fn into_command(self) -> DapCommand
        ensures { result ≡ self.command }
    {
        let Self { seq: _, command } = self;
        command
    }
}

impl DapCommand {
    ghost use Rattle.dap_talk.specs.Table.{name_of};

    /// The name of the command.
    pub fn name(&self) -> CommandName
        ensures { result ≡ name_of self.now }
    {
        match self {
            DapCommand::Initialize => CommandName::Initialize,
            DapCommand::Attach => CommandName::Attach,
            DapCommand::Disconnect => CommandName::Disconnect,
            DapCommand::ConfigurationDone => CommandName::ConfigurationDone,
            DapCommand::SetBreakpoints { .. } => CommandName::SetBreakpoints,
            DapCommand::Threads => CommandName::Threads,
            DapCommand::StackTrace { .. } => CommandName::StackTrace,
            DapCommand::Scopes { .. } => CommandName::Scopes,
            DapCommand::Variables { .. } => CommandName::Variables,
            DapCommand::SetVariable { .. } => CommandName::SetVariable,
            DapCommand::Continue => CommandName::Continue,
            DapCommand::Step { kind, .. } => step_name(*kind),
            DapCommand::Pause => CommandName::Pause,
            DapCommand::Disassemble { .. } => CommandName::Disassemble,
            DapCommand::Source { .. } => CommandName::Source,
            DapCommand::DumpCell { .. } => CommandName::DumpCell,
            DapCommand::DebugInfo => CommandName::DebugInfo,
            DapCommand::InspectVariables => CommandName::InspectVariables,
            DapCommand::BoardSwitches { .. } => CommandName::BoardSwitches,
            DapCommand::BoardPress { .. } => CommandName::BoardPress,
            DapCommand::BoardType { .. } => CommandName::BoardType,
            DapCommand::BoardReset => CommandName::BoardReset,
            DapCommand::BoardAliases { .. } => CommandName::BoardAliases,
        }
    }
}

const EVERY_NAME: [CommandName; 25] = [
    CommandName::Initialize,
    CommandName::Attach,
    CommandName::Disconnect,
    CommandName::ConfigurationDone,
    CommandName::SetBreakpoints,
    CommandName::Threads,
    CommandName::StackTrace,
    CommandName::Scopes,
    CommandName::Variables,
    CommandName::SetVariable,
    CommandName::Continue,
    CommandName::Next,
    CommandName::StepIn,
    CommandName::StepOut,
    CommandName::Pause,
    CommandName::Disassemble,
    CommandName::Source,
    CommandName::DumpCell,
    CommandName::DebugInfo,
    CommandName::InspectVariables,
    CommandName::BoardSwitches,
    CommandName::BoardPress,
    CommandName::BoardType,
    CommandName::BoardReset,
    CommandName::BoardAliases,
];

impl CommandName {
    ghost use Rattle.dap_talk.specs.Table.{command_named};

    /// The text of `command` in requests and responses.
    pub fn as_str(self) -> &'static str
        ensures { result.now ≡ spelling_of self }
    {
        match self {
            CommandName::Initialize => "initialize",
            CommandName::Attach => "attach",
            CommandName::Disconnect => "disconnect",
            CommandName::ConfigurationDone => "configurationDone",
            CommandName::SetBreakpoints => "setBreakpoints",
            CommandName::Threads => "threads",
            CommandName::StackTrace => "stackTrace",
            CommandName::Scopes => "scopes",
            CommandName::Variables => "variables",
            CommandName::SetVariable => "setVariable",
            CommandName::Continue => "continue",
            CommandName::Next => "next",
            CommandName::StepIn => "stepIn",
            CommandName::StepOut => "stepOut",
            CommandName::Pause => "pause",
            CommandName::Disassemble => "disassemble",
            CommandName::Source => "source",
            CommandName::DumpCell => "dumpCell",
            CommandName::DebugInfo => "debugInfo",
            CommandName::InspectVariables => "inspectVariables",
            CommandName::BoardSwitches => "boardSwitches",
            CommandName::BoardPress => "boardPress",
            CommandName::BoardType => "boardType",
            CommandName::BoardReset => "boardReset",
            CommandName::BoardAliases => "boardAliases",
        }
    }

    /// The command with this name, if there is one.
    pub fn from_name(text: &str) -> Option<CommandName>
        ensures first { result ≡ command_named text.now }
        ensures spelled { IfSome result (λ name. spelling_of name ≡ text.now) }
    {
        first_named(&EVERY_NAME, text)
    }
}

fn first_named(names: &[CommandName], text: &str) -> Option<CommandName>
    ensures first { result ≡ first_named names.now text.now }
    ensures spelled { IfSome result (λ name. spelling_of name ≡ text.now) }
{
    for name in names {
        if name.as_str() == text {
            return Some(*name);
        }
    }
    None
}
