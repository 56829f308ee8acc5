//! A kernel without its journal.
ghost use Rattle.std.specs.Prelude.{◌≡◌, List, IfOk, IsTrue, length, option_map};
ghost use Rattle.kern_post.specs.Posts.{kept_post};
ghost use Rattle.kern_core.specs.States.{kernel_before_calls, KernelState as KernelStateOf};
ghost use Rattle.kern_core.specs.Turns.{turn};
ghost use Rattle.kern_core.specs.Represents.{RepresentsKernel, RepresentsSomeState, TakesTurn, HasRoom};

mod connections;
mod debug;
mod requests;
mod slices;

use kern_calls::call::{Arrival, Call, Reply, Subscription};
use kern_calls::fault::KernelFault;
use kern_exec::executions::Executions;
use kern_peers::peers::Peers;
use kern_post::post::Post;
use kern_post::store::Store;
use lab_core::lab::Lab;
use std::alloc::{AllocError, Global};
use std::marker::Model;

/// The most that is counted of posts and executions.
const MOST_COUNTED: u64 = (1 << 63) - 1;

/// A kernel without its journal: the board, the connections, the executions, and the posts that are kept.
#[derive(Drop)]
pub struct KernelState {
    lab: Lab,
    peers: Peers,
    executions: Executions,
    store: Store,
    is_shut: bool,
    alloc: Global,
}

impl Model for KernelState {
    ghost use Rattle.kern_core.specs.Represents.{KernelFields};

    ghost Value = { KernelFields };

    ghost view = { λ s. record {
      lab = s.lab;
      connections = s.peers;
      work = s.executions;
      store = s.store;
      is_shut = s.is_shut;
    } };
}

impl KernelState {
    /// A kernel on which no call was made. Allocates room for all posts that are kept and all executions
    /// that can wait.
    pub fn new(alloc: Global) -> Result<KernelState, AllocError>
        ensures represents { IfOk result (λ state. RepresentsKernel state kernel_before_calls) }
        ensures room { IfOk result (λ state. (state.store.made ≡ 0)
            × ((state.connections.joined ≡ 0) × (state.work.count ≡ 0))) }
    {
        let store = Store::new(alloc)?;
        let executions = Executions::new(alloc)?;
        match Lab::new(alloc) {
            Ok(lab) => Ok(KernelState {
                lab,
                peers: Peers::new(alloc),
                executions,
                store,
                is_shut: false,
                alloc,
            }),
            Err(_) => {
                drop(executions);
                Err(AllocError)
            }
        }
    }

    /// Whether one more call can't make a count overflow.
    pub fn has_room(&self) -> bool
        ensures { IsTrue result → HasRoom self.now }
    {
        self.store.post_count() < MOST_COUNTED - 8
            && self.peers.joined_count() < u32::MAX
            && self.executions.count() < MOST_COUNTED
    }

    /// How many posts there were so far.
    pub fn post_count(&self) -> u64
        ensures { (s : KernelStateOf) → RepresentsKernel self.now s → result ≡ length s.posts }
    {
        self.store.post_count()
    }

    /// The post with a number, if it is kept.
    pub fn post(&self, number: u64) -> Option<&Post>
        ensures { (s : KernelStateOf) → RepresentsKernel self.now s
            → option_map (λ post. post.now) result ≡ kept_post number s.posts }
    {
        self.store.post(number)
    }

    /// Makes a call.
    #[tactic(auto, unfolding(crate::specs::Turns::turn))]
    pub fn make(&mut self, call: &Call) -> Result<Reply, KernelFault>
        requires room { HasRoom self.old }
        requires represents { RepresentsSomeState self.old }
        ensures { TakesTurn (turn call.now) self.old result self.new }
    {
        match call {
            Call::Join { channel, identity } => self.join(*channel, identity.get()),
            Call::Leave { connection } => self.leave(*connection),
            Call::Subscribe {
                connection,
                subscription,
            } => {
                let Subscription {
                    wants,
                    prefix,
                    unix_seconds,
                } = subscription.get();
                self.subscribe(*connection, *wants, prefix, *unix_seconds)
            }
            Call::Arrive {
                connection,
                arrival,
            } => {
                let Arrival {
                    request,
                    unix_seconds,
                } = arrival.get();
                self.arrive(*connection, request, *unix_seconds)
            }
            Call::Slice { unix_seconds } => self.slice(*unix_seconds),
            Call::Fetch { connection, from } => self.fetch(*connection, *from),
        }
    }
}
