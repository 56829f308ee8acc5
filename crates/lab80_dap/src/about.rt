//! What the program says of itself.
ghost use Rattle.std.specs.Prelude.{◌≡◌, ◌⊎◌};
ghost use Rattle.cli_io.specs.Engine.{WritesAnswer, BlamesWriter};

use base_streams::ports::Outlet;
use base_streams::std_io::StdOutlet;
use base_streams::writing::write_all;
use cli_io::report::flush_report;
use cli_io::status::Status;
use std::io;

/// What `--help` prints.
pub const HELP: &str = "\
usage: lab80-dap [--port N | --help | --version]

The debugger of lab80 for editors that speak the Debug Adapter Protocol.
With no word it serves an editor over standard input and output.

  --port N   serves the first editor that connects to port N of 127.0.0.1
  --help     prints this
  --version  prints the version
";

/// What `--version` prints. The number is that of the file VERSION.
pub const VERSION: &str = "lab80-dap 1.0\n";

// What standard error says if the program doesn't know the words.
const USAGE: &str = "usage: lab80-dap [--port N | --help | --version]";

// Writes the text.
fn write_text<W: Outlet>(writer: &mut W, text: &str) -> Status
    ensures answers { WritesAnswer Status.Success text.now result (W.state writer.old) (W.state writer.new) }
    ensures blame { BlamesWriter result (W.state writer.old) (W.state writer.new) }
    ensures status { (result ≡ Status.Success) ⊎ (result ≡ Status.Failed) }
{
    match write_all(writer, text.as_bytes()) {
        Ok(()) => Status::Success,
        Err(_) => Status::Failed,
    }
}

/// Prints the text. The status says whether that failed.
pub fn show_text(rt: &impl Print, text: &str) -> Status
    ensures { (result ≡ Status.Success) ⊎ (result ≡ Status.Failed) }
{
    let mut output = StdOutlet::new(io::writer(rt));
    let status = write_text(&mut output, text);
    flush_report(status, &mut output.into_inner())
}

/// Writes the usage to standard error. The status is the same if that can't be written.
pub fn show_usage(rt: &impl Eprint) -> Status
    ensures { result ≡ Status.Usage }
{
    let _ = rt.eprintln(USAGE);
    Status::Usage
}
