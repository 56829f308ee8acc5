//! What the program says of itself.
ghost use Rattle.std.specs.Prelude.{◌≡◌};
ghost use Rattle.cli_io.specs.Engine.{WritesAnswer, BlamesWriter};

use base_streams::ports::Outlet;
use base_streams::writing::write_all;
use cli_io::status::Status;

/// What `--help` prints.
pub const HELP: &str = "\
usage: lab80-hex [--binary | --com | --list | --help | --version]

Assembles the cell on standard input, and writes its bytes to standard output.
With no word it writes Intel HEX.

  --binary   writes the bytes from the lowest address to the highest, 0 in gaps
  --com      writes the bytes from 0100H to the highest address, for CP/M
  --list     reads Intel HEX, and writes a cell that assembles to it
  --help     prints this
  --version  prints the version
";

/// What `--version` prints. The number is that of the file VERSION.
pub const VERSION: &str = "lab80-hex 1.0\n";

// What standard error says if the program doesn't know the words.
const USAGE: &str = "usage: lab80-hex [--binary | --com | --list | --help | --version]";

/// Writes the text. The status says whether that failed.
pub fn show_text<W: Outlet>(writer: &mut W, text: &str) -> Status
    ensures answers { WritesAnswer Status.Success text.now result (W.state writer.old) (W.state writer.new) }
    ensures blame { BlamesWriter result (W.state writer.old) (W.state writer.new) }
{
    match write_all(writer, text.as_bytes()) {
        Ok(()) => Status::Success,
        Err(_) => Status::Failed,
    }
}

/// Writes the usage to standard error. The status is the same if that can't be written.
pub fn show_usage(rt: &impl Eprint) -> Status
    ensures { result ≡ Status.Usage }
{
    let _ = rt.eprintln(USAGE);
    Status::Usage
}
