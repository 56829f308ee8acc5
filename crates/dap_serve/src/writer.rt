//! What takes the bytes for the editor.
ghost use Rattle.std.specs.Prelude.{None};

use base_streams::ports::{IoFault, Outlet};
use base_streams::std_io::write_some;
use std::io::Write;

/// A writer of std that is flushed after each write, so that the editor gets the bytes at once.
#[derive(Drop)]
pub struct PromptOutlet<W: Write + Drop> {
    writer: W,
    failed: bool,
}

impl<W: Write + Drop> PromptOutlet<W> {
    /// Wraps a writer.
    pub fn new(writer: W) -> PromptOutlet<W> {
        PromptOutlet {
            writer,
            failed: false,
        }
    }
}

impl<W: Write + Drop> Outlet for PromptOutlet<W> {
    ghost state = { λ s. record { taken = None; failed = s.failed } };

    fn write(&mut self, bytes: &[u8]) -> Result<usize, IoFault> {
        let written = write_some(&mut self.writer, bytes);
        match (written, self.writer.flush()) {
            (Ok(count), Ok(())) => Ok(count),
            _ => {
                self.failed = true;
                Err(IoFault)
            }
        }
    }
}
