//! The commands of the kernel that editors send too.
ghost use Rattle.std.specs.Prelude.{◌≡◌};
ghost use Rattle.dap_requests.specs.Board.{board_command};

use crate::request::BoardCommand;
use dap_talk::command::DapCommand;

/// The command of an editor that is this one of the kernel. `None` for those that have other arguments for
/// editors.
pub fn board_command(command: DapCommand) -> Option<BoardCommand>
    ensures { result ≡ board_command command }
{
    let same = match command {
        DapCommand::Attach => BoardCommand::Attach,
        DapCommand::Disconnect => BoardCommand::Disconnect,
        DapCommand::ConfigurationDone => BoardCommand::ConfigurationDone,
        DapCommand::Threads => BoardCommand::Threads,
        DapCommand::StackTrace {
            start_frame,
            levels,
        } => BoardCommand::StackTrace {
            start_frame,
            levels,
        },
        DapCommand::Continue => BoardCommand::Continue,
        DapCommand::Step { kind, granularity } => BoardCommand::Step { kind, granularity },
        DapCommand::Pause => BoardCommand::Pause,
        DapCommand::Source { path } => BoardCommand::Source(path),
        DapCommand::DumpCell { code } => BoardCommand::DumpCell(code),
        DapCommand::DebugInfo => BoardCommand::DebugInfo,
        DapCommand::InspectVariables => BoardCommand::InspectVariables,
        DapCommand::BoardSwitches { value } => BoardCommand::BoardSwitches(value),
        DapCommand::BoardPress { vector } => BoardCommand::BoardPress(vector),
        DapCommand::BoardType { text } => BoardCommand::BoardType(text),
        DapCommand::BoardReset => BoardCommand::BoardReset,
        DapCommand::BoardAliases { aliases } => BoardCommand::BoardAliases(aliases),
        DapCommand::Initialize
        | DapCommand::SetBreakpoints { .. }
        | DapCommand::Scopes { .. }
        | DapCommand::Variables { .. }
        | DapCommand::SetVariable { .. }
        | DapCommand::Disassemble { .. } => return None,
    };
    Some(same)
}
