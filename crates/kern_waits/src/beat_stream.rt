//! Reading the heartbeat.
use crate::peer_stream::{PeerStream, Watch, lift_timeout};
use crate::port::Port;
use std::io;
use std::io::Read;
use std::net::TcpStream;
use std::rt::Clock;
use std::sync::Wait;
use std::sync::atomic::{AtomicBool, Ordering};

// A greeting, and a frame's flags and its size in one byte or in eight (ZMTP 3.0, "Framing").
const GREETING_SIZE: usize = 64;

const SHORT_HEAD: usize = GREETING_SIZE + 2;

const LONG_HEAD: usize = GREETING_SIZE + 9;

const LONG_COMMAND: u8 = 0x06;

// What has come of a peer's handshake: its greeting, and its READY.
#[derive(Drop)]
struct Opening {
    head: [u8; LONG_HEAD],
    read: usize,
}

impl Opening {
    fn new() -> Opening {
        Opening {
            head: [0; LONG_HEAD],
            read: 0,
        }
    }

    // How many bytes it has, as far as what has come says.
    fn size(&self) -> usize {
        if self.read < SHORT_HEAD {
            return SHORT_HEAD;
        }
        if self.head[GREETING_SIZE] != LONG_COMMAND {
            return SHORT_HEAD + usize::from(self.head[GREETING_SIZE + 1]);
        }
        if self.read < LONG_HEAD {
            return LONG_HEAD;
        }
        let mut size = [0u8; 8];
        size.copy_from_slice(&self.head[GREETING_SIZE + 1..]);
        (u64::from_be_bytes(size) as usize).saturating_add(LONG_HEAD)
    }

    // How many bytes are missing.
    fn missing(&self) -> usize {
        self.size().saturating_sub(self.read)
    }

    // Notes bytes that have come.
    fn add(&mut self, bytes: &[u8]) {
        for byte in bytes {
            if let Some(place) = self.head.get_mut(self.read) {
                *place = *byte;
            }
            self.read = self.read.saturating_add(1);
        }
    }
}

/// The socket of a connection of the heartbeat, from which it is read. Its handshake must come in time.
#[derive(Drop)]
pub struct BeatStream<'a, R: Wait + Clock> {
    peer: PeerStream<'a, R>,
    opening: Opening,
    stream: &'a TcpStream,
    has_met: &'a AtomicBool,
    is_asked: &'a AtomicBool,
}

impl<'a, R: Wait + Clock> BeatStream<'a, R> {
    /// The socket of a new connection. `is_asked` becomes true once bytes have come behind the handshake.
    pub fn new(
        watch: Watch<'a, R>,
        is_asked: &'a AtomicBool,
        stream: &'a TcpStream,
    ) -> BeatStream<'a, R> {
        let has_met = watch.has_met;
        BeatStream {
            peer: PeerStream::new(watch, Port::Heartbeat, stream),
            opening: Opening::new(),
            stream,
            has_met,
            is_asked,
        }
    }

    // Notes bytes of the handshake that have come.
    fn note_opening(&mut self, bytes: &[u8]) {
        self.opening.add(bytes);
        if self.opening.missing() == 0 {
            self.has_met.store(true, Ordering::SeqCst);
            lift_timeout(self.stream);
        }
    }
}

impl<'a, R: Wait + Clock> Read for BeatStream<'a, R> {
    // Amid the handshake it reads no further than to the handshake's end.
    fn read(&mut self, buffer: &mut [u8]) -> io::Result<usize> {
        if self.has_met.load(Ordering::SeqCst) {
            let count = self.peer.read(buffer)?;
            if count > 0 {
                self.is_asked.store(true, Ordering::SeqCst);
            }
            return Ok(count);
        }
        let most = buffer.len().min(self.opening.missing());
        let count = self.peer.read(&mut buffer[..most])?;
        self.note_opening(&buffer[..count]);
        Ok(count)
    }
}
