//! What a request is, whatever its arguments are.
ghost use Rattle.std.specs.Prelude.{◌≡◌};
ghost use Rattle.dap_requests.specs.Traits as traits;
ghost use Rattle.dap_requests.specs.Traits.{traits_of};

use crate::request::{
    BoardCommand, BreakpointsCommand, EditorCommand, EvaluateContext, MemoryCommand,
    RequestContent, SourceCommand, VariablesCommand,
};

/// What a request is while a search backward goes on.
#[derive(Clone, Copy)]
pub enum MidSearch {
    /// It is answered as ever, and the search goes on.
    Look,
    /// It ends the search, and the run stays where it was.
    Pause,
    /// It ends the program or the session, and with that the search.
    End,
    /// It is refused.
    Other,
}

/// What can be said of a request by its command alone, and by the context of an evaluation.
#[derive(Clone, Copy)]
pub struct RequestTraits {
    /// Whether it may come before `initialize`.
    pub opens: bool,
    /// Whether it types a line, or loads a program: then none is asked for any more.
    pub ends_question: bool,
    pub mid_search: MidSearch,
}

// Of requests that come after `initialize`, and type nothing.
fn amid(mid_search: MidSearch) -> RequestTraits
    ensures { result ≡ traits.amid mid_search }
{
    RequestTraits {
        opens: false,
        ends_question: false,
        mid_search,
    }
}

fn board_traits(command: &BoardCommand) -> RequestTraits
    ensures { result ≡ traits.board_traits command.now }
{
    match command {
        BoardCommand::Threads | BoardCommand::StackTrace { .. } | BoardCommand::Source(_) => {
            amid(MidSearch::Look)
        }
        BoardCommand::Pause => amid(MidSearch::Pause),
        BoardCommand::Disconnect => RequestTraits {
            opens: true,
            ends_question: false,
            mid_search: MidSearch::End,
        },
        BoardCommand::BoardType(_) => RequestTraits {
            opens: false,
            ends_question: true,
            mid_search: MidSearch::Other,
        },
        BoardCommand::Attach
        | BoardCommand::ConfigurationDone
        | BoardCommand::Continue
        | BoardCommand::Step { .. }
        | BoardCommand::DumpCell(_)
        | BoardCommand::DebugInfo
        | BoardCommand::InspectVariables
        | BoardCommand::BoardSwitches(_)
        | BoardCommand::BoardPress(_)
        | BoardCommand::BoardReset
        | BoardCommand::BoardAliases(_) => amid(MidSearch::Other),
    }
}

fn source_traits(command: &SourceCommand) -> RequestTraits
    ensures { result ≡ traits.source_traits command.now }
{
    match command {
        SourceCommand::SetBreakpoints(_) => amid(MidSearch::Other),
        SourceCommand::BreakpointLocations { .. } | SourceCommand::GotoTargets { .. } => {
            amid(MidSearch::Look)
        }
    }
}

fn breakpoints_traits(command: &BreakpointsCommand) -> RequestTraits
    ensures { result ≡ traits.breakpoints_traits command.now }
{
    match command {
        BreakpointsCommand::DataBreakpointInfo(_) => amid(MidSearch::Look),
        BreakpointsCommand::SetFunctionBreakpoints(_)
        | BreakpointsCommand::SetExceptionBreakpoints(_)
        | BreakpointsCommand::SetDataBreakpoints(_)
        | BreakpointsCommand::SetInstructionBreakpoints(_) => amid(MidSearch::Other),
    }
}

fn memory_traits(command: &MemoryCommand) -> RequestTraits
    ensures { result ≡ traits.memory_traits command.now }
{
    match command {
        MemoryCommand::ReadMemory { .. } | MemoryCommand::Disassemble { .. } => {
            amid(MidSearch::Look)
        }
        MemoryCommand::WriteMemory { .. } => amid(MidSearch::Other),
    }
}

fn variables_traits(command: &VariablesCommand) -> RequestTraits
    ensures { result ≡ traits.variables_traits command.now }
{
    match command {
        VariablesCommand::Scopes { .. }
        | VariablesCommand::Variables { .. }
        | VariablesCommand::Completions { .. } => amid(MidSearch::Look),
        VariablesCommand::SetVariable { .. } | VariablesCommand::SetExpression { .. } => {
            amid(MidSearch::Other)
        }
    }
}

// Only what is typed at the prompt may be a command.
fn evaluate_traits(context: EvaluateContext) -> RequestTraits
    ensures { result ≡ traits.evaluate_traits context }
{
    match context {
        EvaluateContext::Repl => amid(MidSearch::Other),
        EvaluateContext::Watch | EvaluateContext::Other => amid(MidSearch::Look),
    }
}

fn editor_traits(command: &EditorCommand) -> RequestTraits
    ensures { result ≡ traits.editor_traits command.now }
{
    match command {
        EditorCommand::Initialize { .. } => RequestTraits {
            opens: true,
            ends_question: false,
            mid_search: MidSearch::Other,
        },
        EditorCommand::Terminate => amid(MidSearch::End),
        EditorCommand::ExceptionInfo | EditorCommand::LoadedSources => amid(MidSearch::Look),
        EditorCommand::StepBack(_) | EditorCommand::ReverseContinue | EditorCommand::Goto { .. } =>
            amid(MidSearch::Other),
        EditorCommand::Evaluate { context, .. } => evaluate_traits(*context),
        EditorCommand::OnSource { command, .. } => source_traits(command),
        EditorCommand::Breakpoints(command) => breakpoints_traits(command),
        EditorCommand::Memory(command) => memory_traits(command),
        EditorCommand::Variables(command) => variables_traits(command),
    }
}

/// What a request is, whatever its arguments are.
pub fn traits_of(asked: &RequestContent) -> RequestTraits
    ensures { result ≡ traits_of asked.now }
{
    match asked {
        RequestContent::Load(_) => RequestTraits {
            opens: false,
            ends_question: true,
            mid_search: MidSearch::Other,
        },
        RequestContent::Board(command) => board_traits(command),
        RequestContent::Editor(command) => editor_traits(command),
        RequestContent::Faulty(_) => RequestTraits {
            opens: true,
            ends_question: false,
            mid_search: MidSearch::Look,
        },
    }
}
