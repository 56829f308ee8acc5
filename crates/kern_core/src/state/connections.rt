//! Joining, leaving, subscribing and fetching.
ghost use Rattle.std.specs.Prelude.{◌≡◌, ◌==◌, IfOk, codes};
ghost use Rattle.std.specs.List.{starts_with};
ghost use Rattle.kern_core.specs.Connections.{join_turn, leave_turn, subscribing, new_subscription, fetching};
ghost use Rattle.kern_core.specs.Connections.{fetch_turn, status_to, first_status, is_busy, state_of};
ghost use Rattle.kern_peers.specs.Connections.{same_channel};
ghost use Rattle.kern_core.specs.Represents.{RepresentsKernel, MakesTurn, TakesTurn, HasRoom};
ghost use Rattle.kern_core.specs.States.{KernelState as KernelStateOf};

use crate::state::KernelState;
use base_text::sequence::{Bytes, Sequence};
use jup_wire::channel::Channel;
use kern_calls::call::Reply;
use kern_calls::fault::KernelFault;
use kern_post::content::{Content, ExecutionState};
use kern_post::letters::Letters;
use kern_post::post::{Envelope, Head, Letter, copy_bytes};
use std::alloc::AllocError;

pub(super) fn is_iopub(channel: Channel) -> bool
    ensures { result ≡ same_channel channel Channel.Iopub }
{
    matches!(channel, Channel::Iopub)
}

fn begins_status(prefix: &[u8]) -> bool
    ensures { result ≡ starts_with (λ x y. x == y) (codes "status") prefix.now }
{
    b"status".starts_with(prefix)
}

impl KernelState {
    pub(super) fn join(&mut self, channel: Channel, identity: &Bytes) -> Result<Reply, KernelFault>
        requires { HasRoom self.old }
        ensures { TakesTurn (join_turn channel identity.now) self.old result self.new }
    {
        if self.peers.has_no_place(channel, identity.as_slice()) {
            return Err(KernelFault::Full);
        }
        let identity = copy_bytes(identity)?;
        let connection = self.peers.join(channel, identity)?;
        Ok(Reply::Joined {
            connection,
            from: self.store.post_count() + 1,
        })
    }

    pub(super) fn leave(&mut self, connection: u32) -> Result<Reply, KernelFault>
        requires { HasRoom self.old }
        ensures { TakesTurn (leave_turn connection) self.old result self.new }
    {
        if self.peers.get(connection).is_none() {
            return Err(KernelFault::NoConnection);
        }
        self.peers.leave(connection);
        Ok(Reply::Left)
    }

    pub(super) fn fetch(&self, connection: u32, from: u64) -> Result<Reply, KernelFault>
        ensures { MakesTurn (fetch_turn connection from) self.now result self.now }
    {
        match self.peers.get(connection) {
            None => Err(KernelFault::NoConnection),
            Some(_) => self.fetch_from(connection, from),
        }
    }

    fn fetch_from(&self, connection: u32, from: u64) -> Result<Reply, KernelFault>
        ensures { MakesTurn (fetching connection from) self.now result self.now }
    {
        let first = self.store.first();
        if from < first {
            return Err(KernelFault::Lagged { first });
        }
        let posts = self.store.fetch(self.alloc, connection, from)?;
        Ok(Reply::Fetched {
            posts,
            next: self.store.next(from),
            ended: self.is_shut,
        })
    }

    /// Whether a run exists, a start is pending or executions wait.
    fn is_busy(&self) -> bool
        ensures { (s : KernelStateOf) → RepresentsKernel self.now s → result ≡ is_busy s }
    {
        self.has_run()
            || self.executions.pending_start().is_some()
            || self.executions.first().is_some()
    }

    fn state(&self) -> ExecutionState
        ensures { (s : KernelStateOf) → RepresentsKernel self.now s → result ≡ state_of s }
    {
        if self.is_busy() {
            ExecutionState::Busy
        } else {
            ExecutionState::Idle
        }
    }

    // A status letter to this connection alone.
    fn status_to(&self, connection: u32) -> Result<Letter, AllocError>
        ensures { (s : KernelStateOf) → RepresentsKernel self.now s
            → IfOk result (λ letter. letter ≡ status_to connection s) }
    {
        let to = Sequence::from(vec![in self.alloc; connection]?);
        let parent = Bytes::copy_of(self.alloc, b"{}")?;
        let envelope = Envelope {
            to,
            head: Head::Topic,
            parent,
        };
        Ok(Letter {
            envelope,
            content: Content::Status(self.state()),
        })
    }

    fn first_status(&self, connection: u32, prefix: &[u8]) -> Result<Letters, AllocError>
        ensures { (s : KernelStateOf) → RepresentsKernel self.now s
            → IfOk result (λ letters. letters ≡ first_status connection prefix.now s) }
    {
        let mut letters = Letters::new(self.alloc)?;
        if begins_status(prefix) {
            let letter = self.status_to(connection)?;
            letters.push(letter);
        }
        Ok(letters)
    }

    fn add_subscription(
        &mut self,
        connection: u32,
        prefix: &Bytes,
        unix_seconds: u64,
    ) -> Result<Reply, KernelFault>
        requires { HasRoom self.old }
        ensures { TakesTurn (new_subscription connection prefix.now unix_seconds) self.old result self.new }
    {
        let letters = self.first_status(connection, prefix.as_slice())?;
        let prefix = copy_bytes(prefix)?;
        self.peers.subscribe(connection, prefix)?;
        self.store.push_all(unix_seconds, letters);
        Ok(Reply::Subscribed)
    }

    pub(super) fn subscribe(
        &mut self,
        connection: u32,
        wants: bool,
        prefix: &Bytes,
        unix_seconds: u64,
    ) -> Result<Reply, KernelFault>
        requires { HasRoom self.old }
        ensures { TakesTurn (subscribing connection wants prefix.now unix_seconds) self.old result self.new }
    {
        let Some(peer) = self.peers.get(connection) else {
            return Err(KernelFault::NoConnection);
        };
        if !is_iopub(peer.channel) {
            return Err(KernelFault::NoConnection);
        }
        let is_full = peer.is_full();
        if !wants {
            self.peers.cancel(connection, prefix.as_slice());
            return Ok(Reply::Subscribed);
        }
        if is_full {
            return Err(KernelFault::Full);
        }
        self.add_subscription(connection, prefix, unix_seconds)
    }
}
