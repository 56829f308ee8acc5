//! Debug commands, each carried out on a board.
ghost use Rattle.std.specs.Prelude.{◌≡◌, ◌≤◌, length};
ghost use Rattle.base_text.specs.Latin.{latin_bytes};
ghost use Rattle.dap_board.specs.Commands.{command_result, event_result, event_with_body, cell_dump};
ghost use Rattle.dap_board.specs.Commands.{step_request, board_with};
ghost use Rattle.dap_board.specs.Commands.{Performs, IsPerformable};

use crate::event::{answer_to, apply_for};
use crate::look::look;
use base_text::latin::to_bytes;
use base_text::sequence::Sequence;
use base_text::text::Text;
use dap_answers::answer::Body;
use dap_answers::cell::cell_path;
use dap_talk::command::DapCommand;
use i80_base::board::Board;
use lab_core::event::{Event, StepRequest};
use lab_core::fault::EventFault;
use lab_core::lab::Lab;
use lab_shown::step::{Granularity, StepKind};
use std::alloc::Global;

fn set_breakpoints(lab: &mut Lab, path: &Text, lines: &Sequence<u32>) -> Result<Body, EventFault>
    requires { length lines.now ≤ 256 }
    ensures { Performs (event_result (Event.SetBreakpoints path.now lines.now)) lab.old result lab.new }
{
    let path = path.clone()?;
    let lines = lines.clone()?;
    answer_to(lab, Event::SetBreakpoints { path, lines })
}

fn step(lab: &mut Lab, kind: StepKind, granularity: Granularity) -> Result<Body, EventFault>
    ensures { Performs (event_with_body (Event.Step
        (step_request kind granularity)) Body.Empty) lab.old result lab.new }
{
    let request = StepRequest { kind, granularity };
    apply_for(lab, Event::Step(request), Body::Empty)
}

/// Stores a cell's text under the path by which a frontend names it, and returns the path. The copies
/// are made first, so that memory can't run out once the text is stored.
fn dump_cell(alloc: Global, lab: &mut Lab, code: &Text) -> Result<Body, EventFault>
    ensures { Performs (cell_dump code.now) lab.old result lab.new }
{
    let path = cell_path(alloc, code.as_str())?;
    let text = code.clone()?;
    let answer = path.clone()?;
    apply_for(lab, Event::Dump { path, text }, Body::SourcePath(answer))
}

/// Writes a register or a byte of memory. The text of the answer is made before the write.
fn set_variable(
    lab: &mut Lab,
    reference: u32,
    name: &Text,
    value: &Text,
) -> Result<Body, EventFault>
    ensures { Performs (event_result (Event.Poke reference name.now value.now)) lab.old result lab.new }
{
    let name = name.clone()?;
    let value = value.clone()?;
    let event = Event::Poke {
        reference,
        name,
        value,
    };
    answer_to(lab, event)
}

fn board_with_aliases(aliases: bool) -> Board
    ensures { result ≡ board_with aliases }
{
    if aliases {
        Board::Aliases
    } else {
        Board::Strict
    }
}

/// Types a text at the console: each character as its byte in ISO 8859-1, `?` where it has none.
fn type_text(alloc: Global, lab: &mut Lab, text: &Text) -> Result<Body, EventFault>
    ensures { Performs (event_with_body (Event.Typed
        (latin_bytes text.now)) Body.Empty) lab.old result lab.new }
{
    let bytes = to_bytes(alloc, text.as_str())?;
    apply_for(lab, Event::Typed(bytes), Body::Empty)
}

/// Carries out a command on a board (Debug Adapter Protocol, "Requests"; Jupyter messaging, "Debug
/// request"). Returns the body of its response, or why the board refuses it. If memory runs out the
/// board stays as it was, too.
#[tactic(auto, using(crate::proofs::CommandLemmas::arms), unfolding(crate::specs::Commands::command_result))]
pub fn perform(alloc: Global, lab: &mut Lab, command: &DapCommand) -> Result<Body, EventFault>
    requires { IsPerformable command.now }
    ensures { Performs (command_result command.now) lab.old result lab.new }
{
    match command {
        DapCommand::Initialize => Ok(Body::Capabilities),
        DapCommand::Attach => apply_for(lab, Event::Attach, Body::Empty),
        DapCommand::Disconnect => apply_for(lab, Event::Detach, Body::Empty),
        DapCommand::ConfigurationDone => Ok(Body::Empty),
        DapCommand::SetBreakpoints { path, lines } => set_breakpoints(lab, path, lines),
        DapCommand::Threads => Ok(Body::Threads),
        DapCommand::Continue => apply_for(lab, Event::Resume, Body::Continued),
        DapCommand::Step { kind, granularity } => step(lab, *kind, *granularity),
        DapCommand::Pause => apply_for(lab, Event::Pause, Body::Empty),
        DapCommand::DumpCell { code } => dump_cell(alloc, lab, code),
        DapCommand::SetVariable {
            reference,
            name,
            value,
        } => set_variable(lab, *reference, name, value),
        DapCommand::BoardSwitches { value } => apply_for(lab, Event::Switches(*value), Body::Empty),
        DapCommand::BoardPress { vector } => apply_for(lab, Event::Press(*vector), Body::Empty),
        DapCommand::BoardType { text } => type_text(alloc, lab, text),
        DapCommand::BoardReset => apply_for(lab, Event::Reset, Body::Empty),
        DapCommand::BoardAliases { aliases } => {
            apply_for(
                lab,
                Event::SetBoard(board_with_aliases(*aliases)),
                Body::Empty,
            )
        }
        DapCommand::StackTrace { .. }
        | DapCommand::Scopes { .. }
        | DapCommand::Variables { .. }
        | DapCommand::Disassemble { .. }
        | DapCommand::Source { .. }
        | DapCommand::DebugInfo
        | DapCommand::InspectVariables => look(lab, command),
    }
}
