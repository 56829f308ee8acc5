//! Test doubles: a reader and a writer that move few bytes at a time, and that fail.
use std::io;
use std::io::{ErrorKind, Read, Write};

/// A reader of some bytes that gives at most `piece` at a time, is interrupted before each read, and, if
/// `fails`, fails in place of its end.
#[derive(Drop)]
pub struct Slow<'a> {
    pub rest: &'a [u8],
    pub piece: usize,
    pub is_interrupted: bool,
    pub fails: bool,
}

impl Read for Slow<'_> {
    fn read(&mut self, buf: &mut [u8]) -> io::Result<usize> {
        self.is_interrupted = !self.is_interrupted;
        if self.is_interrupted {
            return Err(io::Error::from(ErrorKind::Interrupted));
        }
        if self.rest.is_empty() && self.fails {
            return Err(io::Error::from(ErrorKind::Other));
        }
        let count = self.piece.min(self.rest.len()).min(buf.len());
        let (piece, rest) = self.rest.split_at(count);
        buf.split_at_mut(count).0.copy_from_slice(piece);
        self.rest = rest;
        Ok(count)
    }
}

/// A writer that takes one byte at a time, and fails once it has `room` bytes.
#[derive(Drop)]
pub struct Narrow {
    pub bytes: Vec<u8>,
    pub room: usize,
}

impl Write for Narrow {
    fn write(&mut self, buf: &[u8]) -> io::Result<usize> {
        if self.bytes.len() >= self.room {
            return Err(io::Error::from(ErrorKind::BrokenPipe));
        }
        match buf.first() {
            Some(byte) => {
                self.bytes.push(*byte)?;
                Ok(1)
            }
            None => Ok(0),
        }
    }

    fn flush(&mut self) -> io::Result<()> {
        Ok(())
    }
}
