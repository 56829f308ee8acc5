// ZMTP 3.0 (RFC 23) with the NULL mechanism: one side of a connection, its handshake and its heartbeat.
// `Decoder::feed` takes a stream in pieces of any size and returns the messages that each piece completes.
// They are those of a grammar of whole items, by which a stream has one reading. A fault is returned at the
// first byte that decides it. `handshake` writes the greeting before it reads, and keeps the messages that
// come with the peer's READY. `heartbeat` sends each message back unchanged. Every fault names its cause.
#![tactic(auto)]

mod command;
pub mod decoder;
pub mod fault;
pub mod feeding;
pub mod handshake;
mod head;
pub mod heartbeat;
pub mod laws;
pub mod messages;
pub mod peer_fault;
mod progress;
mod receiving;
pub mod role;
mod sending;
pub mod writing;
