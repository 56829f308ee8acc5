//! A reader and a writer over memory, which move at most a chosen number of bytes a call and fail at a chosen
//! call.
ghost use Rattle.std.specs.Prelude.{◌≡◌, Some, true, false, ◌++◌, take, drop, [], IfOk};

use crate::counting::one_more;
use crate::ports::{Inlet, IoFault, Outlet};
use std::alloc::Global;
use std::marker::Model;

/// A writer that keeps what it took.
#[derive(Drop)]
pub struct Sink {
    held: Vec<u8>,
    most: usize,
    calls: u64,
    failed: bool,
}

impl Model for Sink {
    ghost use Rattle.base_streams.specs.Memory.{SinkState};

    ghost Value = { SinkState };

    ghost view = { λ s. record { taken = s.held.items; most = s.most; calls = s.calls; failed = s.failed } };
}

impl Sink {
    /// A writer that takes at most `most` bytes a call, and fails after `calls` calls. If `most` is 0, it
    /// fails at the first call.
    pub fn new(alloc: Global, most: usize, calls: u64) -> Sink
        ensures { result ≡ record { taken = []; most = most; calls = calls; failed = false } }
    {
        Sink {
            held: Vec::new(alloc),
            most,
            calls,
            failed: false,
        }
    }

    /// The bytes that it has taken.
    pub fn as_slice(&self) -> &[u8]
        ensures { result.now ≡ self.now.taken }
    {
        self.held.as_slice()
    }
}

impl Outlet for Sink {
    ghost state = { λ s. record { taken = Some s.taken; failed = s.failed } };

    /// Also fails if memory runs out.
    fn write(&mut self, bytes: &[u8]) -> Result<usize, IoFault> {
        let count = bytes.len().min(self.most);
        if self.calls == 0 || count == 0 || self.held.extend_from_slice(&bytes[..count]).is_err() {
            self.failed = true;
            return Err(IoFault);
        }
        self.calls -= 1;
        Ok(count)
    }
}

/// A reader of bytes that it holds.
#[derive(Drop)]
pub struct Source {
    held: Vec<u8>,
    place: usize,
    most: usize,
    calls: u64,
    reads: Option<u64>,
    failed: bool,
    ended: bool,
}

impl Model for Source {
    ghost use Rattle.std.specs.Prelude.{take, drop, length, ◌≤◌};
    ghost use Rattle.base_streams.specs.Memory.{SourceState};

    ghost Value = { SourceState };

    ghost view = { λ s. record {
      given = take s.place s.held.items;
      left = drop s.place s.held.items;
      most = s.most;
      calls = s.calls;
      reads = s.reads;
      failed = s.failed;
      ended = s.ended;
    } };

    ghost invariant = { λ s. s.place ≤ length s.held.items };
}

impl Source {
    /// A reader of these bytes that gives at most `most` a call, and fails after `calls` calls. If `most` is
    /// 0, it fails at the first call, since a read of no bytes would be the end.
    pub fn new(bytes: Vec<u8>, most: usize, calls: u64) -> Source
        ensures { result ≡ record {
          given = [];
          left = bytes.items;
          most = most;
          calls = calls;
          reads = Some 0;
          failed = false;
          ended = false;
        } }
    {
        Source {
            held: bytes,
            place: 0,
            most,
            calls,
            reads: Some(0),
            failed: false,
            ended: false,
        }
    }
}

impl Inlet for Source {
    ghost state = { λ s. record {
      given = Some s.given;
      left = Some s.left;
      reads = s.reads;
      ended = s.ended;
      failed = s.failed;
    } };

    fn read(&mut self, buffer: &mut [u8]) -> Result<usize, IoFault> {
        self.reads = one_more(self.reads);
        if self.calls == 0 || self.most == 0 {
            self.failed = true;
            return Err(IoFault);
        }
        self.calls -= 1;
        let left = &self.held[self.place..];
        let count = left.len().min(self.most).min(buffer.len());
        buffer[..count].copy_from_slice(&left[..count]);
        self.place += count;
        if count == 0 {
            self.ended = true;
        }
        Ok(count)
    }
}
