//! Reading unsigned bytes: those that come before a message has opened, and all on iopub and the heartbeat.
//! What the kernel keeps of them it may keep for good, so they are read no faster than the budget of their
//! port allows.
use crate::port::Port;
use crate::sockets::await_end;
use crate::throttles::Throttles;
use std::io;
use std::io::Read;
use std::net::TcpStream;
use std::rt::Clock;
use std::sync::Wait;
use std::sync::atomic::{AtomicBool, Ordering};

/// How many bytes of a handshake are neither delayed nor counted. An honest client's handshake and first
/// subscriptions have fewer.
pub const FREE_BYTES: usize = 192;

// How many bytes are read at a time after the free ones, so that a connection owes little when it has to
// wait.
const PIECE: usize = 4_096;

// The longest sleep before the budget is checked again.
const SLEEP_MILLIS: u64 = 500;

/// What a reader does where the budget hasn't allowed a read in time.
#[derive(Clone, Copy)]
pub enum Late {
    /// Reads what has come.
    Reads,
    /// Ends the stream.
    Ends,
}

// How a wait for the budget ended.
#[derive(Clone, Copy)]
enum Waited {
    Allowed,
    OutOfPatience,
    PeerLeft,
}

/// A reader that delays unsigned bytes as the budget of their port says.
#[derive(Drop)]
pub struct UnsignedStream<'a, S: Read + Drop, R: Wait + Clock> {
    pub stream: S,
    /// The socket that is read.
    pub peer: &'a TcpStream,
    pub rt: &'a R,
    pub throttles: &'a Throttles,
    pub port: Port,
    /// Set once a message has opened: what comes after it is signed.
    pub is_heard: &'a AtomicBool,
    /// How many bytes are neither delayed nor counted.
    pub free: usize,
    /// The longest delay of one read, in milliseconds.
    pub patience: u64,
    /// What a read does after that.
    pub late: Late,
    /// How many bytes were read so far.
    pub read: usize,
}

impl<'a, S: Read + Drop, R: Wait + Clock> UnsignedStream<'a, S, R> {
    // Waits until the budget allows a read, until `patience` is over, or until the peer has closed its side.
    fn wait(&self) -> Waited {
        let mut left = self.patience;
        for _ in self.rt.forever() {
            let owed = self.throttles.wait_for_bytes(self.rt, self.port);
            if owed == 0 {
                return Waited::Allowed;
            }
            let wait = owed.min(SLEEP_MILLIS).min(left);
            if wait == 0 {
                return Waited::OutOfPatience;
            }
            if await_end(self.peer, wait) {
                return Waited::PeerLeft;
            }
            left -= wait;
        }
        unreachable!()
    }

    // Whether there is to be a read at all, after a wait if one is due.
    fn is_to_read(&self) -> bool {
        if self.read <= self.free {
            return true;
        }
        match (self.wait(), self.late) {
            (Waited::Allowed, _) | (Waited::OutOfPatience, Late::Reads) => true,
            (Waited::OutOfPatience, Late::Ends) | (Waited::PeerLeft, _) => false,
        }
    }
}

impl<'a, S: Read + Drop, R: Wait + Clock> Read for UnsignedStream<'a, S, R> {
    fn read(&mut self, buffer: &mut [u8]) -> io::Result<usize> {
        if self.is_heard.load(Ordering::SeqCst) {
            return self.stream.read(buffer);
        }
        if !self.is_to_read() {
            return Ok(0);
        }
        // As long as bytes are free, no more than these are read. So what an honest client sends behind its
        // handshake isn't read, and counted, with the handshake.
        let free = self.free.saturating_sub(self.read);
        let most = buffer.len().min(if free > 0 { free } else { PIECE });
        let count = self.stream.read(&mut buffer[..most])?;
        self.read = self.read.saturating_add(count);
        let spent = self.read.saturating_sub(self.free).min(count).min(PIECE);
        if spent > 0 {
            self.throttles.spend(self.rt, self.port, spent as u32);
        }
        Ok(count)
    }
}
