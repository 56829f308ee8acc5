//! What the program does for each command.
ghost use Rattle.cli_io.specs.Engine.{BlamesStreams};
ghost use Rattle.lab80_hex.specs.Answer.{AnswersCommand};

use crate::about::{HELP, VERSION, show_text, show_usage};
use crate::command::Command;
use base_streams::ports::{Inlet, Outlet};
use cli_hex::hex::run_hex;
use cli_hex::list::run_hex_list;
use cli_io::status::Status;

/// Does what the command says. If there is none, it prints the usage to standard error.
pub fn answer<R: Inlet, W: Outlet>(
    rt: &(impl AllocGlobal + Eprint),
    command: Option<Command>,
    reader: &mut R,
    writer: &mut W,
) -> Status
    ensures answers { AnswersCommand command result
        (R.state reader.old) (W.state writer.old) (W.state writer.new) }
    ensures blame { BlamesStreams result (R.state reader.old) (R.state reader.new)
        (W.state writer.old) (W.state writer.new) }
{
    match command {
        Some(Command::Write(form)) => run_hex(rt.alloc(), form, reader, writer),
        Some(Command::ListFile) => run_hex_list(rt.alloc(), reader, writer),
        Some(Command::Help) => show_text(writer, HELP),
        Some(Command::Version) => show_text(writer, VERSION),
        None => show_usage(rt),
    }
}
