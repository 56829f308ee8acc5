//! A connection.
ghost use Rattle.std.specs.Prelude.{◌≡◌};

use base_text::sequence::{Bytes, Sequence};
use jup_wire::channel::Channel;

/// The most subscriptions that a connection can have.
pub const MOST_SUBSCRIPTIONS: usize = 64;

/// An open connection.
#[derive(Drop)]
pub struct Peer {
    /// Its number, from 1. No other connection ever has the same.
    pub number: u32,
    pub channel: Channel,
    /// The identity with which it joined, empty if it had none.
    pub identity: Bytes,
    /// The prefixes that it subscribed to, in order. One to which it subscribed twice stands there twice.
    pub prefixes: Sequence<Bytes>,
}

impl Peer {
    ghost use Rattle.kern_peers.specs.Connections.{is_full};

    /// Whether it has the most subscriptions that a connection can have.
    pub fn is_full(&self) -> bool
        ensures { result ≡ is_full self.now }
    {
        MOST_SUBSCRIPTIONS <= self.prefixes.len()
    }
}
