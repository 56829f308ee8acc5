//! std's readers and writers. A read or a write that is interrupted is tried again, here and nowhere else.
ghost use Rattle.std.specs.Prelude.{◌≡◌, ◌≤◌, ◌<◌, Some, None, true, false, length, IfOk};
ghost use Rattle.std.specs.Io.KnownBytes.{ReadConsumes, WriteAppends};

use crate::counting::one_more;
use crate::ports::{Inlet, IoFault, Outlet};
use std::io::{ErrorKind, Read, Write};
use std::marker::Model;

/// Reads bytes into the front of the buffer, and returns how many; zero is the end. A read that is
/// interrupted is tried again, at most 4,294,967,295 times in a row.
pub fn read_some<R: Read>(reader: &mut R, buffer: &mut [u8]) -> Result<usize, IoFault>
    ensures count { IfOk result (λ n. n ≤ length buffer.new) }
    ensures bytes { ReadConsumes (R.remaining reader.old) (R.remaining reader.new) result buffer.new }
{
    for _ in 0..u32::MAX {
        match reader.read(buffer) {
            Ok(count) => return Ok(count),
            Err(error) => {
                if error.kind() != ErrorKind::Interrupted {
                    return Err(IoFault);
                }
            }
        }
    }
    Err(IoFault)
}

/// Writes bytes from the front, at least one, and returns how many. A write that is interrupted is tried
/// again, at most 4,294,967,295 times in a row; a write of no bytes is a failure.
pub fn write_some<W: Write>(writer: &mut W, bytes: &[u8]) -> Result<usize, IoFault>
    ensures count { IfOk result (λ n. (0 < n) × (n ≤ length bytes.now)) }
    ensures bytes { WriteAppends (W.contents writer.old) (W.contents writer.new) result bytes.now }
{
    for _ in 0..u32::MAX {
        match writer.write(bytes) {
            Ok(0) => return Err(IoFault),
            Ok(count) => return Ok(count),
            Err(error) => {
                if error.kind() != ErrorKind::Interrupted {
                    return Err(IoFault);
                }
            }
        }
    }
    Err(IoFault)
}

/// A reader of std. The bytes that are left are known if std knows them, as of a slice or a cursor over
/// memory, and not of a file or a socket. The bytes that it has given aren't kept.
#[derive(Drop)]
pub struct StdInlet<R: Read + Drop> {
    reader: R,
    reads: Option<u64>,
    failed: bool,
    ended: bool,
}

impl<R: Read + Drop> Model for StdInlet<R> {
    ghost use Rattle.base_streams.specs.States.{StdInletState};

    ghost Value = { StdInletState R };

    ghost view = { λ s. record {
      reader = s.reader;
      reads = s.reads;
      ended = s.ended;
      failed = s.failed;
    } };
}

impl<R: Read + Drop> StdInlet<R> {
    /// Wraps a reader.
    pub fn new(reader: R) -> StdInlet<R>
        ensures { result ≡ record { reader = reader; reads = Some 0; ended = false; failed = false } }
    {
        StdInlet {
            reader,
            reads: Some(0),
            failed: false,
            ended: false,
        }
    }
}

impl<R: Read + Drop> Inlet for StdInlet<R> {
    ghost state = { λ s. record {
      given = None;
      left = R.remaining s.reader;
      reads = s.reads;
      ended = s.ended;
      failed = s.failed;
    } };

    fn read(&mut self, buffer: &mut [u8]) -> Result<usize, IoFault> {
        self.reads = one_more(self.reads);
        match read_some(&mut self.reader, buffer) {
            Ok(0) => {
                self.ended = true;
                Ok(0)
            }
            Ok(count) => Ok(count),
            Err(fault) => {
                self.failed = true;
                Err(fault)
            }
        }
    }
}

/// A writer of std. The bytes that it has taken are known if std knows them, as of a vector.
#[derive(Drop)]
pub struct StdOutlet<W: Write + Drop> {
    writer: W,
    failed: bool,
}

impl<W: Write + Drop> Model for StdOutlet<W> {
    ghost use Rattle.base_streams.specs.States.{StdOutletState};

    ghost Value = { StdOutletState W };

    ghost view = { λ s. record { writer = s.writer; failed = s.failed } };
}

impl<W: Write + Drop> StdOutlet<W> {
    /// Wraps a writer.
    pub fn new(writer: W) -> StdOutlet<W>
        ensures { result ≡ record { writer = writer; failed = false } }
    {
        StdOutlet {
            writer,
            failed: false,
        }
    }

    /// The writer that is wrapped.
    pub fn into_inner(self) -> W
        ensures { result ≡ self.writer }
    {
        let StdOutlet { writer, failed: _ } = self;
        writer
    }
}

impl<W: Write + Drop> Outlet for StdOutlet<W> {
    ghost state = { λ s. record { taken = W.contents s.writer; failed = s.failed } };

    fn write(&mut self, bytes: &[u8]) -> Result<usize, IoFault> {
        match write_some(&mut self.writer, bytes) {
            Ok(count) => Ok(count),
            Err(fault) => {
                self.failed = true;
                Err(fault)
            }
        }
    }
}
