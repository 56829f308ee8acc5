//! Reading requests: one function for each command that has arguments.
ghost use Rattle.std.specs.Prelude.{◌≡◌, IfOk, Some, IfSome, option_map};
ghost use Rattle.serde_json.specs.View.{view};
ghost use Rattle.dap_talk.specs.Table.{command_asked, step_name, spelling_of, name_of, IsBounded};
ghost use Rattle.dap_talk.specs.Answer.{IsAnswer};
ghost use Rattle.dap_talk.specs.Reading.{command_text, envelope_of, envelope_with, reading, Answers};

use crate::arguments::{
    ArgumentFault, address_at, breakpoints_or_none, byte_at, count_at, granularity_or_line,
    lines_of, number_at, number_or_0, source_at, text_at, truth_at, whole_between,
};
use crate::command::{CommandName, DapCommand, DapRequest};
use crate::fault::DapFault;
use crate::members;
use base_text::text::Text;
use lab_shown::step::StepKind;
use serde_json::Value;
use std::alloc::Global;

fn set_breakpoints(alloc: Global, request: &Value) -> Result<DapCommand, ArgumentFault>
    ensures { IsAnswer (command_asked CommandName.SetBreakpoints (view request.now)) result }
{
    let path = source_at(request, "source").ok_or(ArgumentFault::Arguments)?;
    let breakpoints = breakpoints_or_none(request, "breakpoints").ok_or(ArgumentFault::Arguments)?;
    let lines = lines_of(alloc, breakpoints)?.ok_or(ArgumentFault::Arguments)?;
    let path = Text::copy_of(alloc, path)?;
    Ok(DapCommand::SetBreakpoints { path, lines })
}

fn stack_trace(request: &Value) -> Option<DapCommand>
    ensures { result ≡ command_asked CommandName.StackTrace (view request.now) }
{
    let start_frame = number_or_0(request, "startFrame")?;
    let levels = number_or_0(request, "levels")?;
    Some(DapCommand::StackTrace {
        start_frame,
        levels,
    })
}

fn scopes(request: &Value) -> Option<DapCommand>
    ensures { result ≡ command_asked CommandName.Scopes (view request.now) }
{
    let frame_id = number_at(request, "frameId", 0, u32::MAX)?;
    Some(DapCommand::Scopes { frame_id })
}

fn variables(request: &Value) -> Option<DapCommand>
    ensures { result ≡ command_asked CommandName.Variables (view request.now) }
{
    let reference = number_at(request, "variablesReference", 0, u32::MAX)?;
    let start = number_or_0(request, "start")?;
    let count = number_or_0(request, "count")?;
    Some(DapCommand::Variables {
        reference,
        start,
        count,
    })
}

fn set_variable(alloc: Global, request: &Value) -> Result<DapCommand, ArgumentFault>
    ensures { IsAnswer (command_asked CommandName.SetVariable (view request.now)) result }
{
    let Some(reference) = number_at(request, "variablesReference", 0, u32::MAX) else {
        return Err(ArgumentFault::Arguments);
    };
    let name = text_at(request, "name").ok_or(ArgumentFault::Arguments)?;
    let value = text_at(request, "value").ok_or(ArgumentFault::Arguments)?;
    let name = Text::copy_of(alloc, name)?;
    let value = Text::copy_of(alloc, value)?;
    Ok(DapCommand::SetVariable {
        reference,
        name,
        value,
    })
}

#[tactic(auto, using(crate::proofs::ReadingLemmas::asked_step))]
fn step(request: &Value, kind: StepKind) -> Option<DapCommand>
    ensures { result ≡ command_asked (step_name kind) (view request.now) }
{
    let granularity = granularity_or_line(request, "granularity")?;
    Some(DapCommand::Step { kind, granularity })
}

fn disassemble(request: &Value) -> Option<DapCommand>
    ensures { result ≡ command_asked CommandName.Disassemble (view request.now) }
{
    let address = address_at(request, "memoryReference")?;
    let offset = number_or_0(request, "offset")?;
    let instruction_offset = number_or_0(request, "instructionOffset")?;
    let instruction_count = count_at(request, "instructionCount")?;
    Some(DapCommand::Disassemble {
        address,
        offset,
        instruction_offset,
        instruction_count,
    })
}

fn source(alloc: Global, request: &Value) -> Result<DapCommand, ArgumentFault>
    ensures { IsAnswer (command_asked CommandName.Source (view request.now)) result }
{
    let path = source_at(request, "source").ok_or(ArgumentFault::Arguments)?;
    let path = Text::copy_of(alloc, path)?;
    Ok(DapCommand::Source { path })
}

fn dump_cell(alloc: Global, request: &Value) -> Result<DapCommand, ArgumentFault>
    ensures { IsAnswer (command_asked CommandName.DumpCell (view request.now)) result }
{
    let code = text_at(request, "code").ok_or(ArgumentFault::Arguments)?;
    let code = Text::copy_of(alloc, code)?;
    Ok(DapCommand::DumpCell { code })
}

fn board_switches(request: &Value) -> Option<DapCommand>
    ensures { result ≡ command_asked CommandName.BoardSwitches (view request.now) }
{
    let value = byte_at(request, "value")?;
    Some(DapCommand::BoardSwitches { value })
}

fn board_press(request: &Value) -> Option<DapCommand>
    ensures { result ≡ command_asked CommandName.BoardPress (view request.now) }
{
    let vector = byte_at(request, "vector")?;
    Some(DapCommand::BoardPress { vector })
}

fn board_type(alloc: Global, request: &Value) -> Result<DapCommand, ArgumentFault>
    ensures { IsAnswer (command_asked CommandName.BoardType (view request.now)) result }
{
    let text = text_at(request, "text").ok_or(ArgumentFault::Arguments)?;
    let text = Text::copy_of(alloc, text)?;
    Ok(DapCommand::BoardType { text })
}

fn board_aliases(request: &Value) -> Option<DapCommand>
    ensures { result ≡ command_asked CommandName.BoardAliases (view request.now) }
{
    let aliases = truth_at(request, "aliases")?;
    Some(DapCommand::BoardAliases { aliases })
}

fn or_refused(command: Option<DapCommand>) -> Result<DapCommand, ArgumentFault>
    ensures { IsAnswer command result }
{
    command.ok_or(ArgumentFault::Arguments)
}

fn read_command(
    alloc: Global,
    name: CommandName,
    request: &Value,
) -> Result<DapCommand, ArgumentFault>
    ensures { IsAnswer (command_asked name (view request.now)) result }
{
    match name {
        CommandName::Initialize => Ok(DapCommand::Initialize),
        CommandName::Attach => Ok(DapCommand::Attach),
        CommandName::Disconnect => Ok(DapCommand::Disconnect),
        CommandName::ConfigurationDone => Ok(DapCommand::ConfigurationDone),
        CommandName::SetBreakpoints => set_breakpoints(alloc, request),
        CommandName::Threads => Ok(DapCommand::Threads),
        CommandName::StackTrace => or_refused(stack_trace(request)),
        CommandName::Scopes => or_refused(scopes(request)),
        CommandName::Variables => or_refused(variables(request)),
        CommandName::SetVariable => set_variable(alloc, request),
        CommandName::Continue => Ok(DapCommand::Continue),
        CommandName::Next => or_refused(step(request, StepKind::Over)),
        CommandName::StepIn => or_refused(step(request, StepKind::In)),
        CommandName::StepOut => or_refused(step(request, StepKind::Out)),
        CommandName::Pause => Ok(DapCommand::Pause),
        CommandName::Disassemble => or_refused(disassemble(request)),
        CommandName::Source => source(alloc, request),
        CommandName::DumpCell => dump_cell(alloc, request),
        CommandName::DebugInfo => Ok(DapCommand::DebugInfo),
        CommandName::InspectVariables => Ok(DapCommand::InspectVariables),
        CommandName::BoardSwitches => or_refused(board_switches(request)),
        CommandName::BoardPress => or_refused(board_press(request)),
        CommandName::BoardType => board_type(alloc, request),
        CommandName::BoardReset => Ok(DapCommand::BoardReset),
        CommandName::BoardAliases => or_refused(board_aliases(request)),
    }
}

/// The number of a request and the text of its command; `None` if the value isn't a request.
pub fn envelope_of(value: &Value) -> Option<(u32, &str)>
    ensures read { option_map (λ e. envelope_with e.0 e.1.now) result
        ≡ envelope_of (view value.now) }
    ensures command { IfSome result
        (λ e. command_text (view value.now) ≡ Some e.1.now) }
{
    if members::text_at(value, "type")? != "request" {
        return None;
    }
    let seq = whole_between(value.get("seq")?, 0, u32::MAX)?;
    let command = members::text_at(value, "command")?;
    Some((seq, command))
}

/// Reads a request (Debug Adapter Protocol, "Base Protocol"). The value must be an object with the
/// type `request`, a whole `seq` of 32 bits and a text `command`; then the command must be in the
/// table, and then each of its arguments as the table says. Other arguments are ignored. Absent
/// `arguments` count as an empty object; `null` doesn't count as absent.
#[tactic(auto, unfolding(crate::specs::Reading::reading))]
pub fn read_request<'a>(alloc: Global, value: &'a Value) -> Result<DapRequest, DapFault<'a>>
    ensures read { Answers (reading (view value.now)) result }
    ensures command { IfOk result
        (λ r. command_text (view value.now) ≡ Some (spelling_of (name_of r.command))) }
    ensures bounded { IfOk result (λ r. IsBounded r.command) }
{
    let Some((seq, text)) = envelope_of(value) else {
        return Err(DapFault::NotRequest);
    };
    let Some(name) = CommandName::from_name(text) else {
        return Err(DapFault::Command { seq, command: text });
    };
    match read_command(alloc, name, value) {
        Ok(command) => Ok(DapRequest { seq, command }),
        Err(ArgumentFault::OutOfMemory) => Err(DapFault::OutOfMemory),
        Err(ArgumentFault::Arguments) => Err(DapFault::Arguments { seq, command: text }),
    }
}
