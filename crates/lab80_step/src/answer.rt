//! What the word of the program does.
ghost use Rattle.std.specs.Prelude.{◌≡◌, map, option_map, string_bytes};
ghost use Rattle.cli_io.specs.Command.{task_of, command_of};
ghost use Rattle.cli_io.specs.Engine.{BlamesStreams};
ghost use Rattle.lab80_step.specs.Answer.{AnswersWords};

use base_streams::ports::{Inlet, Outlet};
use cli_io::command::{Command, read_command};
use cli_io::status::Status;
use cli_io::words::show_usage;
use cli_run::step::run_step;

/// Does what the words after the program's name ask for. For words of another program, or of none, it
/// prints the usage to standard error.
pub fn answer<R: Inlet, W: Outlet>(
    rt: &(impl AllocGlobal + Eprint),
    words: &[String],
    reader: &mut R,
    writer: &mut W,
) -> Status
    ensures answers { AnswersWords (command_of (map string_bytes words.now)) result
        (R.state reader.old) (W.state writer.old) (W.state writer.new) }
    ensures blame { BlamesStreams result (R.state reader.old) (R.state reader.new)
        (W.state writer.old) (W.state writer.new) }
{
    match read_command(words) {
        Some(Command::Step) => run_step(rt.alloc(), reader, writer),
        Some(Command::Asm | Command::Dis(_) | Command::Kernel(_) | Command::Term(_)) | None =>
            show_usage(rt),
    }
}
