//! The open connections.
ghost use Rattle.std.specs.Prelude.{◌≡◌, ◌<◌, ◌+◌, ◌^◌, ◌++◌, ◌∷◌, [], IfOk, OnOk, OnErr, option_map};
ghost use Rattle.std.specs.Prelude.{count_by};
ghost use Rattle.std.specs.List.{list_any, find, position};
ghost use Rattle.std.specs.Str.{bytes_eq};
ghost use Rattle.jup_wire.specs.declared.channel.Channel.TheVariants.{Stdin};
ghost use Rattle.kern_peers.specs.Connections.{no_connections, is_empty, is_number, is_on};
ghost use Rattle.kern_peers.specs.Connections.{is_same, is_taken, has_no_place, peer_at, stdin_of};
ghost use Rattle.kern_peers.specs.Connections.{begins, is_subscribed, subscribers, joined_by};
ghost use Rattle.kern_peers.specs.Connections.{without, without_first, subscribed_by, without_subscription};

use crate::peer::Peer;
use base_text::sequence::{Bytes, Sequence};
use jup_wire::channel::Channel;
use std::alloc::{AllocError, Global};
use std::marker::Model;
use std::mem;

/// The most connections that a channel can have.
pub const MOST_CONNECTIONS: usize = 16;

/// The open connections, in the order of their numbers, and how many ever joined.
#[derive(Drop)]
pub struct Peers {
    peers: Vec<Peer>,
    joined: u32,
    alloc: Global,
}

impl Model for Peers {
    ghost use Rattle.kern_peers.specs.Connections.{Connections};

    ghost Value = { Connections };

    ghost view = { λ p. record { peers = p.peers.items; joined = p.joined } };
}

impl Peers {
    /// No connections, and no Join so far.
    pub fn new(alloc: Global) -> Peers
        ensures { result ≡ no_connections }
    {
        Peers {
            peers: Vec::new(alloc),
            joined: 0,
            alloc,
        }
    }

    /// How many connections ever joined.
    pub fn joined_count(&self) -> u32
        ensures { result ≡ self.now.joined }
    {
        self.joined
    }

    /// The connection with this number, if it is open.
    pub fn get(&self, number: u32) -> Option<&Peer>
        ensures { option_map (λ p. p.now) result ≡ peer_at number self.now.peers }
    {
        self.peers.iter().find(|p| p.number == number)
    }

    /// Whether no connection with this identity can join the channel: because the channel is full, or
    /// because the identity isn't empty and a connection of the channel has it.
    pub fn has_no_place(&self, channel: Channel, identity: &[u8]) -> bool
        ensures { result ≡ has_no_place channel identity.now self.now.peers }
    {
        MOST_CONNECTIONS <= self.count(channel) || self.is_taken(channel, identity)
    }

    /// Adds a connection without subscriptions, and returns its number, which is the next one.
    pub fn join(&mut self, channel: Channel, identity: Bytes) -> Result<u32, AllocError>
        requires { self.old.joined + 1 < 2 ^ 32 }
        ensures ok { OnOk result (self.new ≡ joined_by channel identity self.old) }
        ensures number { IfOk result (λ number. number ≡ self.old.joined + 1) }
        ensures err { OnErr result (self.new ≡ self.old) }
    {
        self.peers.reserve(1)?;
        let number = self.joined + 1;
        let peer = Peer {
            number,
            channel,
            identity,
            prefixes: Sequence::new(self.alloc),
        };
        self.peers.push_reserved(peer);
        self.joined = number;
        Ok(number)
    }

    /// Removes the connection with this number.
    pub fn leave(&mut self, number: u32)
        ensures { self.new ≡ without number self.old }
    {
        self.peers.retain(move |p| p.number != number);
    }

    /// Adds a subscription to the connection with this number, if it is open.
    pub fn subscribe(&mut self, number: u32, prefix: Bytes) -> Result<(), AllocError>
        ensures ok { OnOk result (self.new ≡ subscribed_by number prefix self.old) }
        ensures err { OnErr result (self.new ≡ self.old) }
    {
        if let Some(place) = place_of(&self.peers, number) {
            self.peers[place].prefixes.push(prefix)?;
        }
        Ok(())
    }

    /// Removes the first subscription to this prefix from the connection with this number, if there is one.
    pub fn cancel(&mut self, number: u32, prefix: &[u8])
        ensures { self.new ≡ without_subscription number prefix.now self.old }
    {
        if let Some(place) = place_of(&self.peers, number) {
            take_out(self.alloc, &mut self.peers[place].prefixes, prefix);
        }
    }

    /// The numbers of the iopub connections that subscribed to a prefix of this topic, in order.
    pub fn subscribers(&self, alloc: Global, topic: &str) -> Result<Sequence<u32>, AllocError>
        ensures { IfOk result (λ numbers. numbers ≡ subscribers topic.now self.now.peers) }
    {
        let mut numbers = Sequence::new(alloc);
        for peer in &self.peers {
            push_if_subscribed(&mut numbers, peer, topic)?;
        }
        Ok(numbers)
    }

    /// The number of the stdin connection with this identity. None has the empty one.
    pub fn stdin_of(&self, identity: &[u8]) -> Option<u32>
        ensures { result ≡ stdin_of identity.now self.now.peers }
    {
        if is_empty(identity) {
            return None;
        }
        let peer = self.on_stdin(identity)?;
        Some(peer.number)
    }

    // The stdin connection with this identity.
    fn on_stdin(&self, identity: &[u8]) -> Option<&Peer>
        ensures { option_map (λ p. p.now) result ≡ find (is_same Stdin identity.now) self.now.peers }
    {
        self.peers
            .iter()
            .find(|p| is_same(p, Channel::Stdin, identity))
    }

    // How many connections a channel has.
    fn count(&self, channel: Channel) -> usize
        ensures { result ≡ count_by (is_on channel) self.now.peers }
    {
        self.peers.iter().filter(|p| is_on(p, channel)).count()
    }

    // Whether the identity isn't empty and a connection of the channel has it.
    fn is_taken(&self, channel: Channel, identity: &[u8]) -> bool
        ensures { result ≡ is_taken channel identity.now self.now.peers }
    {
        !is_empty(identity) && self.has(channel, identity)
    }

    fn has(&self, channel: Channel, identity: &[u8]) -> bool
        ensures { result ≡ list_any (is_same channel identity.now) self.now.peers }
    {
        self.peers.iter().any(|p| is_same(p, channel, identity))
    }
}

// The index of the connection with this number.
fn place_of(peers: &[Peer], number: u32) -> Option<usize>
    ensures { result ≡ position (is_number number) peers.now }
{
    peers.iter().position(|p| p.number == number)
}

fn is_empty(identity: &[u8]) -> bool
    ensures { result ≡ is_empty identity.now }
{
    match identity {
        [] => true,
        _ => false,
    }
}

fn is_on(peer: &Peer, channel: Channel) -> bool
    ensures { result ≡ is_on channel peer.now }
{
    match (peer.channel, channel) {
        (Channel::Shell, Channel::Shell) => true,
        (Channel::Control, Channel::Control) => true,
        (Channel::Stdin, Channel::Stdin) => true,
        (Channel::Iopub, Channel::Iopub) => true,
        _ => false,
    }
}

fn is_same(peer: &Peer, channel: Channel, identity: &[u8]) -> bool
    ensures { result ≡ is_same channel identity.now peer.now }
{
    is_on(peer, channel) && peer.identity.as_slice() == identity
}

// Removes the first of the prefixes that equals this one.
fn take_out(alloc: Global, prefixes: &mut Sequence<Bytes>, prefix: &[u8])
    ensures { prefixes.new ≡ without_first prefix.now prefixes.old }
{
    let mut kept = mem::replace(prefixes, Sequence::new(alloc)).into_vec();
    remove_first(&mut kept, prefix);
    *prefixes = Sequence::from(kept);
}

fn remove_first(prefixes: &mut Vec<Bytes>, prefix: &[u8])
    ensures { prefixes.new.items ≡ without_first prefix.now prefixes.old.items }
{
    if let Some(place) = first_of(prefixes, prefix) {
        let _ = prefixes.remove(place);
    }
}

// The index of the first of the prefixes that equals this one.
fn first_of(prefixes: &[Bytes], prefix: &[u8]) -> Option<usize>
    ensures { result ≡ position (λ p. bytes_eq p prefix.now) prefixes.now }
{
    prefixes.iter().position(|p| p.as_slice() == prefix)
}

fn begins_topic(prefix: &Bytes, topic: &[u8]) -> bool
    ensures { result ≡ begins topic.now prefix.now }
{
    topic.starts_with(prefix.as_slice())
}

fn has_matching_prefix(prefixes: &[Bytes], topic: &[u8]) -> bool
    ensures { result ≡ list_any (begins topic.now) prefixes.now }
{
    prefixes.iter().any(|prefix| begins_topic(prefix, topic))
}

fn is_subscribed(peer: &Peer, topic: &str) -> bool
    ensures { result ≡ is_subscribed topic.now peer.now }
{
    is_on(peer, Channel::Iopub) && has_matching_prefix(peer.prefixes.as_slice(), topic.as_bytes())
}

fn push_if_subscribed(
    numbers: &mut Sequence<u32>,
    peer: &Peer,
    topic: &str,
) -> Result<(), AllocError>
    ensures { OnOk result (numbers.new ≡ numbers.old ++ subscribers topic.now (peer.now ∷ [])) }
{
    if is_subscribed(peer, topic) {
        numbers.push(peer.number)?;
        return Ok(());
    }
    Ok(())
}
