//! The commands of the kernel that editors send too, each carried out on a board.
ghost use Rattle.std.specs.Prelude.{◌≡◌, IfOk};
ghost use Rattle.dap_board.specs.Commands.{IsPerformable, Performs};
ghost use Rattle.dap_requests.specs.Board.{kernel_command};
ghost use Rattle.dap_run.specs.Boards.{board_result};

use base_text::text::Text;
use dap_answers::answer::Body;
use dap_board::perform::perform;
use dap_requests::request::BoardCommand;
use dap_talk::command::DapCommand;
use lab_core::fault::EventFault;
use lab_core::lab::Lab;
use std::alloc::{AllocError, Global};

fn source(path: &Text) -> Result<DapCommand, AllocError>
    ensures same { IfOk result (λ same. same ≡ DapCommand.Source path.now) }
    ensures fits { IfOk result (λ same. IsPerformable same) }
{
    let path = path.clone()?;
    Ok(DapCommand::Source { path })
}

fn dump_cell(code: &Text) -> Result<DapCommand, AllocError>
    ensures same { IfOk result (λ same. same ≡ DapCommand.DumpCell code.now) }
    ensures fits { IfOk result (λ same. IsPerformable same) }
{
    let code = code.clone()?;
    Ok(DapCommand::DumpCell { code })
}

fn board_type(text: &Text) -> Result<DapCommand, AllocError>
    ensures same { IfOk result (λ same. same ≡ DapCommand.BoardType text.now) }
    ensures fits { IfOk result (λ same. IsPerformable same) }
{
    let text = text.clone()?;
    Ok(DapCommand::BoardType { text })
}

// The command of the kernel that is this one.
fn kernel_command(command: &BoardCommand) -> Result<DapCommand, AllocError>
    ensures same { IfOk result (λ same. same ≡ kernel_command command.now) }
    ensures fits { IfOk result (λ same. IsPerformable same) }
{
    match command {
        BoardCommand::Attach => Ok(DapCommand::Attach),
        BoardCommand::Disconnect => Ok(DapCommand::Disconnect),
        BoardCommand::ConfigurationDone => Ok(DapCommand::ConfigurationDone),
        BoardCommand::Threads => Ok(DapCommand::Threads),
        BoardCommand::StackTrace {
            start_frame,
            levels,
        } => Ok(DapCommand::StackTrace {
            start_frame: *start_frame,
            levels: *levels,
        }),
        BoardCommand::Continue => Ok(DapCommand::Continue),
        BoardCommand::Step { kind, granularity } => Ok(DapCommand::Step {
            kind: *kind,
            granularity: *granularity,
        }),
        BoardCommand::Pause => Ok(DapCommand::Pause),
        BoardCommand::Source(path) => source(path),
        BoardCommand::DumpCell(code) => dump_cell(code),
        BoardCommand::DebugInfo => Ok(DapCommand::DebugInfo),
        BoardCommand::InspectVariables => Ok(DapCommand::InspectVariables),
        BoardCommand::BoardSwitches(value) => Ok(DapCommand::BoardSwitches { value: *value }),
        BoardCommand::BoardPress(vector) => Ok(DapCommand::BoardPress { vector: *vector }),
        BoardCommand::BoardType(text) => board_type(text),
        BoardCommand::BoardReset => Ok(DapCommand::BoardReset),
        BoardCommand::BoardAliases(aliases) => Ok(DapCommand::BoardAliases { aliases: *aliases }),
    }
}

/// Carries out a command on a board. Returns the body of its response, or why the board refuses it. If memory
/// runs out the board stays as it was, too.
pub fn perform_command(
    alloc: Global,
    lab: &mut Lab,
    command: &BoardCommand,
) -> Result<Body, EventFault>
    ensures { Performs (board_result command.now) lab.old result lab.new }
{
    let same = kernel_command(command)?;
    let result = perform(alloc, lab, &same);
    drop(same);
    result
}
