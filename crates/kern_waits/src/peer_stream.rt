//! Sockets: their options, and how they are read.
use crate::port::Port;
use crate::sockets::{close, keep_alive};
use crate::throttles::Throttles;
use crate::unsigned::{FREE_BYTES, Late, UnsignedStream};
use jup_wire::channel::Channel;
use std::io;
use std::io::Read;
use std::net::TcpStream;
use std::rt::Clock;
use std::sync::Wait;
use std::sync::atomic::{AtomicBool, Ordering};
use std::time::{Duration, Instant};

// How long a handshake may take, and how long a write or a read of unsigned bytes may wait.
const PATIENCE_SECONDS: u64 = 10;

// A read without patience still takes what has come.
const LAST_LOOK_MILLIS: u64 = 1;

// How many bytes may come before a message has opened, without being delayed: more than a request with the
// longest cell has.
const FREE_BYTES_OF_A_REQUEST: usize = 1_310_720;

// How many are free where short messages come: lines on stdin, and beats, those of an hour and more.
const FREE_BYTES_OF_LINES: usize = 65_536;

fn patience() -> Duration {
    Duration::from_secs(PATIENCE_SECONDS)
}

/// Sets a socket's options. Messages are sent without delay; a peer that doesn't read for ten seconds, or
/// that has vanished, is given up.
pub fn prepare(stream: &TcpStream) -> io::Result<()> {
    keep_alive(stream);
    stream.set_nodelay(true)?;
    stream.set_write_timeout(Some(patience()))
}

// A socket whose reads must end in time.
#[derive(Drop)]
struct PatientStream<'a, C: Clock> {
    stream: &'a TcpStream,
    clock: &'a C,
    begun: Option<Instant>,
}

impl<'a, C: Clock> PatientStream<'a, C> {
    fn new(stream: &'a TcpStream, clock: &'a C) -> PatientStream<'a, C> {
        PatientStream {
            stream,
            clock,
            begun: Instant::now(clock).ok(),
        }
    }

    // The time that is left; all of it if the clock can't be read.
    fn rest(&self) -> Duration {
        let Some(begun) = &self.begun else {
            return patience();
        };
        match begun.elapsed(self.clock) {
            Ok(since) => patience().saturating_sub(since),
            Err(_) => patience(),
        }
    }
}

impl<'a, C: Clock> Read for PatientStream<'a, C> {
    // Where no time is left, a read fails unless something has come.
    fn read(&mut self, buffer: &mut [u8]) -> io::Result<usize> {
        let mut stream = self.stream;
        let most = self.rest().max(Duration::from_millis(LAST_LOOK_MILLIS));
        stream.set_read_timeout(Some(most))?;
        stream.read(buffer)
    }
}

/// What decides how a connection is read: the clock, the throttles, whether its handshake is done, and
/// whether a message has opened.
#[derive(Drop)]
pub struct Watch<'a, R: Wait + Clock> {
    pub rt: &'a R,
    pub throttles: &'a Throttles,
    pub has_met: &'a AtomicBool,
    pub is_heard: &'a AtomicBool,
}

/// A connection's socket, from which it is read. The handshake must come within ten seconds; after it a read
/// may wait for ever. Unsigned bytes are delayed.
#[derive(Drop)]
pub struct PeerStream<'a, R: Wait + Clock> {
    greeting: UnsignedStream<'a, PatientStream<'a, R>, R>,
    traffic: UnsignedStream<'a, &'a TcpStream, R>,
    has_met: &'a AtomicBool,
}

// How many bytes after the handshake are free.
fn free_bytes(port: Port) -> usize {
    match port {
        Port::Channel(Channel::Iopub) => FREE_BYTES / 2,
        Port::Channel(Channel::Shell | Channel::Control) => FREE_BYTES_OF_A_REQUEST,
        Port::Channel(Channel::Stdin) | Port::Heartbeat => FREE_BYTES_OF_LINES,
    }
}

impl<'a, R: Wait + Clock> PeerStream<'a, R> {
    /// The socket of a new connection on a port.
    pub fn new(watch: Watch<'a, R>, port: Port, stream: &'a TcpStream) -> PeerStream<'a, R> {
        PeerStream {
            greeting: UnsignedStream {
                stream: PatientStream::new(stream, watch.rt),
                peer: stream,
                rt: watch.rt,
                throttles: watch.throttles,
                port,
                is_heard: watch.is_heard,
                free: FREE_BYTES,
                patience: PATIENCE_SECONDS * 1_000,
                late: Late::Reads,
                read: 0,
            },
            traffic: UnsignedStream {
                stream,
                peer: stream,
                rt: watch.rt,
                throttles: watch.throttles,
                port,
                is_heard: watch.is_heard,
                free: free_bytes(port),
                patience: PATIENCE_SECONDS * 1_000,
                late: Late::Ends,
                read: 0,
            },
            has_met: watch.has_met,
        }
    }
}

impl<'a, R: Wait + Clock> Read for PeerStream<'a, R> {
    fn read(&mut self, buffer: &mut [u8]) -> io::Result<usize> {
        if self.has_met.load(Ordering::SeqCst) {
            return self.traffic.read(buffer);
        }
        self.greeting.read(buffer)
    }
}

/// Lets reads wait for ever. Closes the socket if the system refuses that.
pub fn lift_timeout(stream: &TcpStream) {
    if stream.set_read_timeout(None).is_err() {
        close(stream);
    }
}
