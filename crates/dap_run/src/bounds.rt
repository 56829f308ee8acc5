//! Bounds that each request keeps that was read from JSON.
ghost use Rattle.std.specs.Prelude.{◌≡◌};
ghost use Rattle.dap_run.specs.Bounds as bounds;
ghost use Rattle.dap_run.specs.Bounds.{is_bounded};

use dap_requests::offset::SignedOffset;
use dap_requests::request::{
    BreakpointsCommand, EditorCommand, MemoryCommand, RequestContent, SourceCommand,
};

/// The most breakpoints of a request.
const MOST_POINTS: usize = 256;

/// The most instructions of a disassembly.
const MOST_INSTRUCTIONS: u16 = 1024;

/// The most instructions between an address and the disassembly behind it.
const MOST_FORWARD: u32 = 65_535;

/// The most instructions that a disassembly may begin before an address.
const MOST_BACK: u32 = 65_536;

fn is_few(count: u16) -> bool
    ensures { result ≡ bounds.is_few count }
{
    1 <= count && count <= MOST_INSTRUCTIONS
}

fn is_near(shift: SignedOffset) -> bool
    ensures { result ≡ bounds.is_near shift }
{
    match shift {
        SignedOffset::Back(n) => n <= MOST_BACK,
        SignedOffset::Forward(n) => n <= MOST_FORWARD,
    }
}

fn is_source_bounded(command: &SourceCommand) -> bool
    ensures { result ≡ bounds.is_source_bounded command.now }
{
    match command {
        SourceCommand::SetBreakpoints(lines) => lines.len() <= MOST_POINTS,
        _ => true,
    }
}

fn are_breakpoints_bounded(command: &BreakpointsCommand) -> bool
    ensures { result ≡ bounds.are_breakpoints_bounded command.now }
{
    match command {
        BreakpointsCommand::SetFunctionBreakpoints(functions) => functions.len() <= MOST_POINTS,
        BreakpointsCommand::SetDataBreakpoints(on_data) => on_data.len() <= MOST_POINTS,
        BreakpointsCommand::SetInstructionBreakpoints(instructions) => {
            instructions.len() <= MOST_POINTS
        }
        _ => true,
    }
}

fn is_memory_bounded(command: &MemoryCommand) -> bool
    ensures { result ≡ bounds.is_memory_bounded command.now }
{
    match command {
        MemoryCommand::Disassemble {
            instruction_offset,
            instruction_count,
            ..
        } => is_near(*instruction_offset) && is_few(*instruction_count),
        _ => true,
    }
}

fn is_command_bounded(command: &EditorCommand) -> bool
    ensures { result ≡ bounds.is_command_bounded command.now }
{
    match command {
        EditorCommand::OnSource { command, .. } => is_source_bounded(command),
        EditorCommand::Breakpoints(command) => are_breakpoints_bounded(command),
        EditorCommand::Memory(command) => is_memory_bounded(command),
        _ => true,
    }
}

/// Whether a request keeps the bounds of each that was read.
pub fn is_bounded(asked: &RequestContent) -> bool
    ensures { result ≡ is_bounded asked.now }
{
    match asked {
        RequestContent::Editor(command) => is_command_bounded(command),
        _ => true,
    }
}
