//! Reading requests: one function for each command that has arguments.
ghost use Rattle.std.specs.Prelude.{◌≡◌, IfOk, OnErr, IsSome};
ghost use Rattle.serde_json.specs.View.{view};
ghost use Rattle.dap_talk.specs.Reading.{envelope_of, envelope_with, reading};
ghost use Rattle.dap_reading.specs.Answer.{Answers};
ghost use Rattle.dap_reading.specs.Table.{command_named, command_asked, launch_asked, evaluate_asked};
ghost use Rattle.dap_reading.specs.Table.{initialize_asked, read_memory_asked, goto_targets_asked};
ghost use Rattle.dap_reading.specs.Table.{write_memory_asked, disassemble_asked};
ghost use Rattle.dap_reading.specs.Table.{set_breakpoints_asked, set_function_breakpoints_asked};
ghost use Rattle.dap_reading.specs.Table.{set_data_breakpoints_asked, set_instruction_breakpoints_asked};
ghost use Rattle.dap_reading.specs.Table.{breakpoint_locations_asked};
ghost use Rattle.dap_reading.specs.Table.{data_breakpoint_info_asked, scopes_asked, variables_asked};
ghost use Rattle.dap_reading.specs.Table.{set_variable_asked, set_expression_asked, completions_asked};
ghost use Rattle.dap_reading.specs.Table.{has_arguments, launch_of, changed_launch, restart_asked};
ghost use Rattle.dap_reading.specs.Table.{set_exception_breakpoints_asked, step_back_asked, goto_asked};
ghost use Rattle.dap_requests.specs.Board.{board_command};
ghost use Rattle.dap_reading.specs.Reading.{has_null_arguments, bare_request, asked_of_board};
ghost use Rattle.dap_reading.specs.Reading.{asked_of_kernel};
ghost use Rattle.dap_reading.specs.Reading.{asked_of_editor};
ghost use Rattle.dap_reading.specs.Reading.{asked_by, unreadable, editor_request};
ghost use Rattle.dap_reading.specs.Reading.{IsBounded};

use crate::arguments::{
    byte_or_0, bytes_at, count_at, granularity_or_line, memory_reference, number_at, number_or,
    offset, path_at, shift_or_0, text_at, text_or_empty, truth_or, word_at, word_or_none,
};
use crate::editor_arguments::{
    context_or_other, data_breakpoints_at, filters_or_none, format_or_hexadecimal, functions_at,
    instructions_at, lines_or_none, operands_or_numbers,
};
use crate::fault::ArgumentFault;
use crate::name::EditorName;
use base_text::text::Text;
use dap_answers::object::Object;
use dap_messages::message::Numbering;
use dap_requests::board::board_command;
use dap_requests::request::{
    BreakpointsCommand, DataQuery, EditorCommand, EditorRequest, Launch, LoadCommand,
    MemoryCommand, RequestContent, RequestFault, SourceCommand, SupportedEvents, VariablesCommand,
};
use dap_talk::command::DapCommand;
use dap_talk::fault::DapFault;
use dap_talk::reading::{envelope_of, read_request};
use serde_json::Value;
use std::alloc::{AllocError, Global};

fn initialize(request: &Value) -> Result<RequestContent, ArgumentFault>
    ensures answer { Answers (initialize_asked (view request.now)) result }
    ensures bounded { IfOk result (λ a. IsBounded a) }
{
    let invalidated = truth_or(request, "supportsInvalidatedEvent", false)?;
    let memory = truth_or(request, "supportsMemoryEvent", false)?;
    let lines_start_at_1 = truth_or(request, "linesStartAt1", true)?;
    let columns_start_at_1 = truth_or(request, "columnsStartAt1", true)?;
    Ok(RequestContent::Editor(EditorCommand::Initialize {
        supported: SupportedEvents {
            invalidated,
            memory,
        },
        numbering: Numbering {
            lines_start_at_1,
            columns_start_at_1,
        },
    }))
}

fn launch_of(alloc: Global, request: &Value) -> Result<Launch, ArgumentFault>
    ensures { Answers (launch_of (view request.now)) result }
{
    let program = text_at(request, "program")?;
    let stops_on_entry = truth_or(request, "stopOnEntry", false)?;
    let stops_at_end = truth_or(request, "stopAtEnd", false)?;
    let only_runs = truth_or(request, "noDebug", false)?;
    let has_aliases = truth_or(request, "aliases", false)?;
    let switches = byte_or_0(request, "switches")?;
    let input = text_or_empty(request, "input")?;
    let has_watch_commands = truth_or(request, "watchCommands", false)?;
    let origin = word_or_none(request, "origin")?;
    let start = word_or_none(request, "start")?;
    let canonical = Text::copy_of(alloc, program)?;
    let program = Text::copy_of(alloc, program)?;
    let input = Text::copy_of(alloc, input)?;
    Ok(Launch {
        program,
        canonical,
        stops_on_entry,
        stops_at_end,
        is_debugged: !only_runs,
        has_aliases,
        switches,
        input,
        has_watch_commands,
        origin: origin.unwrap_or(0),
        start,
    })
}

fn has_arguments(request: &Value) -> bool
    ensures { result ≡ has_arguments (view request.now) }
{
    match request.get("arguments") {
        Some(arguments) => !arguments.is_null(),
        None => false,
    }
}

fn launch(alloc: Global, request: &Value) -> Result<RequestContent, ArgumentFault>
    ensures answer { Answers (launch_asked (view request.now)) result }
    ensures bounded { IfOk result (λ a. IsBounded a) }
{
    let launch = launch_of(alloc, request)?;
    Ok(RequestContent::Load(LoadCommand::Launch(launch)))
}

fn changed_launch(alloc: Global, request: &Value) -> Result<Option<Launch>, ArgumentFault>
    ensures { Answers (changed_launch (view request.now)) result }
{
    match request.get("arguments") {
        Some(own) if has_arguments(own) => Ok(Some(launch_of(alloc, own)?)),
        _ => Ok(None),
    }
}

fn restart(alloc: Global, request: &Value) -> Result<RequestContent, ArgumentFault>
    ensures answer { Answers (restart_asked (view request.now)) result }
    ensures bounded { IfOk result (λ a. IsBounded a) }
{
    let changed = changed_launch(alloc, request)?;
    Ok(RequestContent::Load(LoadCommand::Restart(changed)))
}

fn set_breakpoints(
    alloc: Global,
    numbering: Numbering,
    request: &Value,
) -> Result<RequestContent, ArgumentFault>
    ensures answer { Answers (set_breakpoints_asked numbering (view request.now)) result }
    ensures bounded { IfOk result (λ a. IsBounded a) }
{
    let path = path_at(request, "source")?;
    let lines = lines_or_none(alloc, numbering, request, "breakpoints")?;
    let path = Text::copy_of(alloc, path)?;
    Ok(RequestContent::Editor(EditorCommand::OnSource {
        path,
        command: SourceCommand::SetBreakpoints(lines),
    }))
}

fn set_function_breakpoints(alloc: Global, request: &Value) -> Result<RequestContent, ArgumentFault>
    ensures answer { Answers (set_function_breakpoints_asked (view request.now)) result }
    ensures bounded { IfOk result (λ a. IsBounded a) }
{
    let functions = functions_at(alloc, request, "breakpoints")?;
    Ok(RequestContent::Editor(EditorCommand::Breakpoints(BreakpointsCommand::SetFunctionBreakpoints(
        functions,
    ))))
}

fn set_exception_breakpoints(request: &Value) -> Result<RequestContent, ArgumentFault>
    ensures answer { Answers (set_exception_breakpoints_asked (view request.now)) result }
    ensures bounded { IfOk result (λ a. IsBounded a) }
{
    let filters = filters_or_none(request)?;
    Ok(RequestContent::Editor(EditorCommand::Breakpoints(
        BreakpointsCommand::SetExceptionBreakpoints(filters),
    )))
}

fn data_breakpoint_info(alloc: Global, request: &Value) -> Result<RequestContent, ArgumentFault>
    ensures answer { Answers (data_breakpoint_info_asked (view request.now)) result }
    ensures bounded { IfOk result (λ a. IsBounded a) }
{
    let scope = number_or(request, "variablesReference", 0)?;
    let name = text_at(request, "name")?;
    let count = number_or(request, "bytes", 1)?;
    let is_address = truth_or(request, "asAddress", false)?;
    let name = Text::copy_of(alloc, name)?;
    Ok(RequestContent::Editor(EditorCommand::Breakpoints(BreakpointsCommand::DataBreakpointInfo(
        DataQuery {
            scope,
            name,
            count,
            is_address,
        },
    ))))
}

fn set_data_breakpoints(alloc: Global, request: &Value) -> Result<RequestContent, ArgumentFault>
    ensures answer { Answers (set_data_breakpoints_asked (view request.now)) result }
    ensures bounded { IfOk result (λ a. IsBounded a) }
{
    let breakpoints = data_breakpoints_at(alloc, request, "breakpoints")?;
    Ok(RequestContent::Editor(EditorCommand::Breakpoints(BreakpointsCommand::SetDataBreakpoints(
        breakpoints,
    ))))
}

fn set_instruction_breakpoints(
    alloc: Global,
    request: &Value,
) -> Result<RequestContent, ArgumentFault>
    ensures answer { Answers (set_instruction_breakpoints_asked (view request.now)) result }
    ensures bounded { IfOk result (λ a. IsBounded a) }
{
    let breakpoints = instructions_at(alloc, request, "breakpoints")?;
    Ok(RequestContent::Editor(EditorCommand::Breakpoints(
        BreakpointsCommand::SetInstructionBreakpoints(breakpoints),
    )))
}

fn breakpoint_locations(
    alloc: Global,
    numbering: Numbering,
    request: &Value,
) -> Result<RequestContent, ArgumentFault>
    ensures answer { Answers (breakpoint_locations_asked numbering (view request.now)) result }
    ensures bounded { IfOk result (λ a. IsBounded a) }
{
    let path = path_at(request, "source")?;
    let first = number_at(request, "line")?;
    let last = number_or(request, "endLine", first)?;
    let path = Text::copy_of(alloc, path)?;
    let command = SourceCommand::BreakpointLocations {
        first: numbering.line_meant(first),
        last: numbering.line_meant(last),
    };
    Ok(RequestContent::Editor(EditorCommand::OnSource { path, command }))
}

fn goto_targets(
    alloc: Global,
    numbering: Numbering,
    request: &Value,
) -> Result<RequestContent, ArgumentFault>
    ensures answer { Answers (goto_targets_asked numbering (view request.now)) result }
    ensures bounded { IfOk result (λ a. IsBounded a) }
{
    let path = path_at(request, "source")?;
    let line = number_at(request, "line")?;
    let path = Text::copy_of(alloc, path)?;
    let line = numbering.line_meant(line);
    let command = SourceCommand::GotoTargets { line };
    Ok(RequestContent::Editor(EditorCommand::OnSource { path, command }))
}

fn step_back(request: &Value) -> Result<RequestContent, ArgumentFault>
    ensures answer { Answers (step_back_asked (view request.now)) result }
    ensures bounded { IfOk result (λ a. IsBounded a) }
{
    let by = granularity_or_line(request, "granularity")?;
    Ok(RequestContent::Editor(EditorCommand::StepBack(by)))
}

fn goto(request: &Value) -> Result<RequestContent, ArgumentFault>
    ensures answer { Answers (goto_asked (view request.now)) result }
    ensures bounded { IfOk result (λ a. IsBounded a) }
{
    let target = word_at(request, "targetId")?;
    Ok(RequestContent::Editor(EditorCommand::Goto { target }))
}

fn evaluate(alloc: Global, request: &Value) -> Result<RequestContent, ArgumentFault>
    ensures answer { Answers (evaluate_asked (view request.now)) result }
    ensures bounded { IfOk result (λ a. IsBounded a) }
{
    let expression = text_at(request, "expression")?;
    let context = context_or_other(request, "context")?;
    let format = format_or_hexadecimal(request)?;
    let expression = Text::copy_of(alloc, expression)?;
    Ok(RequestContent::Editor(EditorCommand::Evaluate {
        expression,
        context,
        format,
    }))
}

fn read_memory(request: &Value) -> Result<RequestContent, ArgumentFault>
    ensures answer { Answers (read_memory_asked (view request.now)) result }
    ensures bounded { IfOk result (λ a. IsBounded a) }
{
    let address = memory_reference(request)?;
    let offset = offset(request)?;
    let count = number_at(request, "count")?;
    Ok(RequestContent::Editor(EditorCommand::Memory(MemoryCommand::ReadMemory {
        address,
        offset,
        count,
    })))
}

fn write_memory(alloc: Global, request: &Value) -> Result<RequestContent, ArgumentFault>
    ensures answer { Answers (write_memory_asked (view request.now)) result }
    ensures bounded { IfOk result (λ a. IsBounded a) }
{
    let address = memory_reference(request)?;
    let offset = offset(request)?;
    let bytes = bytes_at(alloc, request, "data")?;
    Ok(RequestContent::Editor(EditorCommand::Memory(MemoryCommand::WriteMemory {
        address,
        offset,
        bytes,
    })))
}

fn disassemble(request: &Value) -> Result<RequestContent, ArgumentFault>
    ensures answer { Answers (disassemble_asked (view request.now)) result }
    ensures bounded { IfOk result (λ a. IsBounded a) }
{
    let address = memory_reference(request)?;
    let offset = offset(request)?;
    let instruction_offset = shift_or_0(request, "instructionOffset", 65536)?;
    let instruction_count = count_at(request, "instructionCount")?;
    let operands = operands_or_numbers(request)?;
    Ok(RequestContent::Editor(EditorCommand::Memory(MemoryCommand::Disassemble {
        address,
        offset,
        instruction_offset,
        instruction_count,
        operands,
    })))
}

fn scopes(request: &Value) -> Result<RequestContent, ArgumentFault>
    ensures answer { Answers (scopes_asked (view request.now)) result }
    ensures bounded { IfOk result (λ a. IsBounded a) }
{
    let frame = number_at(request, "frameId")?;
    Ok(RequestContent::Editor(EditorCommand::Variables(VariablesCommand::Scopes { frame })))
}

fn variables(request: &Value) -> Result<RequestContent, ArgumentFault>
    ensures answer { Answers (variables_asked (view request.now)) result }
    ensures bounded { IfOk result (λ a. IsBounded a) }
{
    let reference = number_at(request, "variablesReference")?;
    let start = number_or(request, "start", 0)?;
    let count = number_or(request, "count", 0)?;
    let format = format_or_hexadecimal(request)?;
    Ok(RequestContent::Editor(EditorCommand::Variables(VariablesCommand::Variables {
        reference,
        start,
        count,
        format,
    })))
}

fn set_variable(alloc: Global, request: &Value) -> Result<RequestContent, ArgumentFault>
    ensures answer { Answers (set_variable_asked (view request.now)) result }
    ensures bounded { IfOk result (λ a. IsBounded a) }
{
    let reference = number_at(request, "variablesReference")?;
    let name = text_at(request, "name")?;
    let value = text_at(request, "value")?;
    let format = format_or_hexadecimal(request)?;
    let name = Text::copy_of(alloc, name)?;
    let value = Text::copy_of(alloc, value)?;
    Ok(RequestContent::Editor(EditorCommand::Variables(VariablesCommand::SetVariable {
        reference,
        name,
        value,
        format,
    })))
}

fn set_expression(alloc: Global, request: &Value) -> Result<RequestContent, ArgumentFault>
    ensures answer { Answers (set_expression_asked (view request.now)) result }
    ensures bounded { IfOk result (λ a. IsBounded a) }
{
    let expression = text_at(request, "expression")?;
    let value = text_at(request, "value")?;
    let format = format_or_hexadecimal(request)?;
    let expression = Text::copy_of(alloc, expression)?;
    let value = Text::copy_of(alloc, value)?;
    Ok(RequestContent::Editor(EditorCommand::Variables(VariablesCommand::SetExpression {
        expression,
        value,
        format,
    })))
}

fn completions(
    alloc: Global,
    numbering: Numbering,
    request: &Value,
) -> Result<RequestContent, ArgumentFault>
    ensures answer { Answers (completions_asked numbering (view request.now)) result }
    ensures bounded { IfOk result (λ a. IsBounded a) }
{
    let text = text_at(request, "text")?;
    let column = number_at(request, "column")?;
    let text = Text::copy_of(alloc, text)?;
    Ok(RequestContent::Editor(EditorCommand::Variables(VariablesCommand::Completions {
        text,
        column: numbering.column_meant(column),
    })))
}

fn read_command(
    alloc: Global,
    numbering: Numbering,
    name: EditorName,
    request: &Value,
) -> Result<RequestContent, ArgumentFault>
    ensures answer { Answers (command_asked numbering name (view request.now)) result }
    ensures bounded { IfOk result (λ a. IsBounded a) }
{
    match name {
        EditorName::Initialize => initialize(request),
        EditorName::Launch => launch(alloc, request),
        EditorName::Restart => restart(alloc, request),
        EditorName::Terminate => Ok(RequestContent::Editor(EditorCommand::Terminate)),
        EditorName::SetBreakpoints => set_breakpoints(alloc, numbering, request),
        EditorName::SetFunctionBreakpoints => set_function_breakpoints(alloc, request),
        EditorName::SetExceptionBreakpoints => set_exception_breakpoints(request),
        EditorName::DataBreakpointInfo => data_breakpoint_info(alloc, request),
        EditorName::SetDataBreakpoints => set_data_breakpoints(alloc, request),
        EditorName::SetInstructionBreakpoints => set_instruction_breakpoints(alloc, request),
        EditorName::BreakpointLocations => breakpoint_locations(alloc, numbering, request),
        EditorName::ExceptionInfo => Ok(RequestContent::Editor(EditorCommand::ExceptionInfo)),
        EditorName::Evaluate => evaluate(alloc, request),
        EditorName::ReadMemory => read_memory(request),
        EditorName::WriteMemory => write_memory(alloc, request),
        EditorName::Disassemble => disassemble(request),
        EditorName::LoadedSources => Ok(RequestContent::Editor(EditorCommand::LoadedSources)),
        EditorName::StepBack => step_back(request),
        EditorName::ReverseContinue => Ok(RequestContent::Editor(EditorCommand::ReverseContinue)),
        EditorName::GotoTargets => goto_targets(alloc, numbering, request),
        EditorName::Goto => goto(request),
        EditorName::Scopes => scopes(request),
        EditorName::Variables => variables(request),
        EditorName::SetVariable => set_variable(alloc, request),
        EditorName::SetExpression => set_expression(alloc, request),
        EditorName::Completions => completions(alloc, numbering, request),
    }
}

fn read_for_editor(
    alloc: Global,
    numbering: Numbering,
    name: EditorName,
    request: &Value,
) -> Result<RequestContent, AllocError>
    ensures read { IfOk result (λ a. a ≡ asked_of_editor (command_asked numbering name (view request.now))) }
    ensures bounded { IfOk result (λ a. IsBounded a) }
{
    match read_command(alloc, numbering, name, request) {
        Ok(asked) => Ok(asked),
        Err(ArgumentFault::OutOfMemory) => Err(AllocError),
        Err(ArgumentFault::Argument(name)) => {
            let name = Text::copy_of(alloc, name)?;
            Ok(RequestContent::Faulty(RequestFault::Argument(name)))
        }
    }
}

// What a command of the kernel asks for, if editors send it with the same arguments.
fn board_content(command: DapCommand) -> RequestContent
    ensures read { result ≡ asked_of_kernel (board_command command) }
    ensures bounded { IsBounded result }
{
    match board_command(command) {
        Some(command) => RequestContent::Board(command),
        None => RequestContent::Faulty(RequestFault::UnknownCommand),
    }
}

fn read_for_board(alloc: Global, request: &Value) -> Result<RequestContent, AllocError>
    ensures read { IfOk result (λ a. a ≡ asked_of_board (reading (view request.now))) }
    ensures bounded { IfOk result (λ a. IsBounded a) }
{
    match read_request(alloc, request) {
        Ok(read) => Ok(board_content(read.into_command())),
        Err(DapFault::OutOfMemory) => Err(AllocError),
        Err(DapFault::NotRequest) => Ok(RequestContent::Faulty(RequestFault::NotRequest)),
        Err(DapFault::Command { .. }) => Ok(RequestContent::Faulty(RequestFault::UnknownCommand)),
        Err(DapFault::Arguments { .. }) => Ok(RequestContent::Faulty(RequestFault::Arguments)),
    }
}

fn read_asked(
    alloc: Global,
    numbering: Numbering,
    command: &str,
    request: &Value,
) -> Result<RequestContent, AllocError>
    ensures read { IfOk result
        (λ a. a ≡ asked_by numbering (command_named command.now) (view request.now)) }
    ensures bounded { IfOk result (λ a. IsBounded a) }
{
    match EditorName::from_name(command) {
        Some(name) => read_for_editor(alloc, numbering, name, request),
        None => read_for_board(alloc, request),
    }
}

fn has_null_arguments(request: &Value) -> bool
    ensures { result ≡ has_null_arguments (view request.now) }
{
    request.get("arguments").is_some_and(Value::is_null)
}

fn bare_request(alloc: Global, seq: u32, command: &str) -> Result<Value, AllocError>
    ensures { IfOk result (λ v. view v ≡ bare_request (envelope_with seq command.now)) }
{
    Object::new(alloc)
        .text("type", "request")
        .number("seq", u64::from(seq))
        .text("command", command)
        .finish()
}

/// The request for bytes that aren't JSON.
pub fn unreadable(alloc: Global) -> EditorRequest
    ensures { result ≡ unreadable }
{
    EditorRequest {
        seq: 0,
        command: Text::from(String::new(alloc)),
        asked: RequestContent::Faulty(RequestFault::NotRequest),
    }
}

/// Reads a request (Debug Adapter Protocol, "Base Protocol") from any JSON value. Its number and command are
/// kept even if it can't be carried out. Arguments that are `null` count as absent. Its lines and columns are
/// read as the editor counts them, and count from 1 in the result.
#[tactic(auto, unfolding(crate::specs::Reading::editor_request))]
pub fn read_editor_request(
    alloc: Global,
    numbering: Numbering,
    request: &Value,
) -> Result<EditorRequest, AllocError>
    ensures read { IfOk result (λ r. r ≡ editor_request numbering (view request.now)) }
    ensures bounded { IfOk result (λ r. IsBounded r.asked) }
    ensures refused { OnErr result (IsSome (envelope_of (view request.now))) }
{
    let Some((seq, text)) = envelope_of(request) else {
        return Ok(unreadable(alloc));
    };
    let command = Text::copy_of(alloc, text)?;
    let asked = if has_null_arguments(request) {
        let bare = bare_request(alloc, seq, text)?;
        read_asked(alloc, numbering, text, &bare)?
    } else {
        read_asked(alloc, numbering, text, request)?
    };
    Ok(EditorRequest {
        seq,
        command,
        asked,
    })
}
