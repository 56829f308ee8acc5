//! A kernel that keeps no journal.
ghost use Rattle.std.specs.Prelude.{◌≡◌, IfOk, length, option_map};
ghost use Rattle.kern_post.specs.Posts.{kept_post};
ghost use Rattle.kern_core.specs.States.{kernel_before_calls, KernelState as KernelStateOf};
ghost use Rattle.kern_core.specs.Turns.{turn};
ghost use Rattle.kern_core.specs.Represents.{RepresentsKernel, TakesTurn};

use crate::state::KernelState;
use kern_calls::call::{Call, Reply};
use kern_calls::fault::KernelFault;
use kern_post::post::Post;
use std::alloc::{AllocError, Global};
use std::marker::Model;

/// A kernel that keeps no journal, so that its calls have no end. Contracts see its fields, and say which
/// states they represent.
pub struct BareKernel {
    state: KernelState,
}

// Written out so that kernels are dropped by one function, here and in the crates above.
impl Drop for BareKernel {
    fn drop(self) {
        let Self { state: _ } = self;
    }
}

impl Model for BareKernel {
    ghost use Rattle.kern_core.specs.Represents.{KernelFields, RepresentsSomeState};

    ghost Value = { KernelFields };

    ghost view = { λ k. k.state };

    ghost invariant = { λ k. RepresentsSomeState k.state };
}

impl BareKernel {
    /// A kernel on which no call was made.
    pub fn new(alloc: Global) -> Result<BareKernel, AllocError>
        ensures { IfOk result (λ kernel. RepresentsKernel kernel kernel_before_calls) }
    {
        let state = KernelState::new(alloc)?;
        Ok(BareKernel { state })
    }

    /// Makes a call. If memory runs out, nothing changes. It also counts as run out for a call after which
    /// there could be 2^63 posts or executions, or 2^32 connections.
    pub fn act(&mut self, call: &Call) -> Result<Reply, KernelFault>
        ensures { TakesTurn (turn call.now) self.old result self.new }
    {
        if !self.state.has_room() {
            return Err(KernelFault::OutOfMemory);
        }
        self.state.make(call)
    }

    /// How many posts there were so far, which is the number of the last one.
    pub fn post_count(&self) -> u64
        ensures { (s : KernelStateOf) → RepresentsKernel self.now s → result ≡ length s.posts }
    {
        self.state.post_count()
    }

    /// The post with a number, if it is among the last 4,096.
    pub fn post(&self, number: u64) -> Option<&Post>
        ensures { (s : KernelStateOf) → RepresentsKernel self.now s
            → option_map (λ post. post.now) result ≡ kept_post number s.posts }
    {
        self.state.post(number)
    }
}
