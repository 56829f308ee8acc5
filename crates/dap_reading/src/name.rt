//! The commands that only editors have, or that have more arguments for them than for the kernel.
ghost use Rattle.std.specs.Prelude.{◌≡◌};
ghost use Rattle.dap_reading.specs.Table.{spelling_of, first_named};

/// A command of editors.
#[derive(Clone, Copy)]
pub enum EditorName {
    Initialize,
    Launch,
    Restart,
    Terminate,
    SetBreakpoints,
    SetFunctionBreakpoints,
    SetExceptionBreakpoints,
    DataBreakpointInfo,
    SetDataBreakpoints,
    SetInstructionBreakpoints,
    BreakpointLocations,
    ExceptionInfo,
    Evaluate,
    ReadMemory,
    WriteMemory,
    Disassemble,
    LoadedSources,
    StepBack,
    ReverseContinue,
    GotoTargets,
    Goto,
    Scopes,
    Variables,
    SetVariable,
    SetExpression,
    Completions,
}

const EVERY_NAME: [EditorName; 26] = [
    EditorName::Initialize,
    EditorName::Launch,
    EditorName::Restart,
    EditorName::Terminate,
    EditorName::SetBreakpoints,
    EditorName::SetFunctionBreakpoints,
    EditorName::SetExceptionBreakpoints,
    EditorName::DataBreakpointInfo,
    EditorName::SetDataBreakpoints,
    EditorName::SetInstructionBreakpoints,
    EditorName::BreakpointLocations,
    EditorName::ExceptionInfo,
    EditorName::Evaluate,
    EditorName::ReadMemory,
    EditorName::WriteMemory,
    EditorName::Disassemble,
    EditorName::LoadedSources,
    EditorName::StepBack,
    EditorName::ReverseContinue,
    EditorName::GotoTargets,
    EditorName::Goto,
    EditorName::Scopes,
    EditorName::Variables,
    EditorName::SetVariable,
    EditorName::SetExpression,
    EditorName::Completions,
];

impl EditorName {
    ghost use Rattle.dap_reading.specs.Table.{command_named};

    /// The text of `command` in requests.
    fn as_str(self) -> &'static str
        ensures { result.now ≡ spelling_of self }
    {
        match self {
            EditorName::Initialize => "initialize",
            EditorName::Launch => "launch",
            EditorName::Restart => "restart",
            EditorName::Terminate => "terminate",
            EditorName::SetBreakpoints => "setBreakpoints",
            EditorName::SetFunctionBreakpoints => "setFunctionBreakpoints",
            EditorName::SetExceptionBreakpoints => "setExceptionBreakpoints",
            EditorName::DataBreakpointInfo => "dataBreakpointInfo",
            EditorName::SetDataBreakpoints => "setDataBreakpoints",
            EditorName::SetInstructionBreakpoints => "setInstructionBreakpoints",
            EditorName::BreakpointLocations => "breakpointLocations",
            EditorName::ExceptionInfo => "exceptionInfo",
            EditorName::Evaluate => "evaluate",
            EditorName::ReadMemory => "readMemory",
            EditorName::WriteMemory => "writeMemory",
            EditorName::Disassemble => "disassemble",
            EditorName::LoadedSources => "loadedSources",
            EditorName::StepBack => "stepBack",
            EditorName::ReverseContinue => "reverseContinue",
            EditorName::GotoTargets => "gotoTargets",
            EditorName::Goto => "goto",
            EditorName::Scopes => "scopes",
            EditorName::Variables => "variables",
            EditorName::SetVariable => "setVariable",
            EditorName::SetExpression => "setExpression",
            EditorName::Completions => "completions",
        }
    }

    /// The command with this name, if there is one.
    pub fn from_name(text: &str) -> Option<EditorName>
        ensures { result ≡ command_named text.now }
    {
        first_named(&EVERY_NAME, text)
    }
}

fn first_named(names: &[EditorName], text: &str) -> Option<EditorName>
    ensures { result ≡ first_named names.now text.now }
{
    for name in names {
        if name.as_str() == text {
            return Some(*name);
        }
    }
    None
}
