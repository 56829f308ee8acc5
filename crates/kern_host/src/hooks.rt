//! Hooks: what is called while a connection is served.
ghost use Rattle.std.specs.Prelude.{◌≡◌};
ghost use Rattle.kern_host.specs.Writes.{when_decided};

use kern_net::end::PumpEnd;
use kern_net::gate::{ReaderGate, WriterGate};
use std::sync::Wait;

/// What is called while a connection is served. A hook may wait, wake other threads or close a socket, but it
/// has no part in the connection's calls and bytes, except that `before_writing` may keep all posts back.
pub trait Hooks<G: ReaderGate, H: WriterGate> {
    /// Called after the handshake and before the Join.
    fn before_join<R: Wait>(&self, _rt: &R) {}

    /// Called by the reader's thread before it reads on.
    fn before_reading<R: Wait>(&self, _rt: &R, gate: &mut G)
        ensures { G.polls gate.new ≡ G.polls gate.old }
    {}

    /// Called by the writer's thread before its first Fetch, which begins at number `from`. If it returns
    /// false, nothing is written.
    fn before_writing<R: Wait>(&self, _rt: &R, gate: &mut H, _from: u64) -> bool
        ensures { H.polls gate.new ≡ when_decided result (H.polls gate.old) }
    {
        true
    }

    /// Called by the reader's thread when reading has ended.
    fn after_reading<R: Wait>(&self, _rt: &R, _gate: &G, _end: PumpEnd) {}

    /// Called by the writer's thread when writing has ended, or hasn't begun.
    fn after_writing<R: Wait>(&self, _rt: &R, _gate: &H) {}

    /// Called after both have ended and before the Leave.
    fn before_leave<R: Wait>(&self, _rt: &R) {}
}

/// Hooks that do nothing.
#[derive(Clone, Copy)]
pub struct NoHooks;

impl<G: ReaderGate, H: WriterGate> Hooks<G, H> for NoHooks {}
