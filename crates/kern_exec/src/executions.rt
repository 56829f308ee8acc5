//! The executions of a kernel: the queue, and the current one.
ghost use Rattle.std.specs.Prelude.{◌≡◌, ◌<◌, ◌+◌, ◌^◌, [], ◌∷◌, List, length, drop, nat_lt, IfOk, None};
ghost use Rattle.std.specs.Prelude.{option_map, MatchOption};
ghost use Rattle.kern_exec.specs.declared.execution.Execution.{Execution};
ghost use Rattle.kern_exec.specs.Executions.{nothing, enqueue, load_first, clear_pending, clear_current};
ghost use Rattle.kern_exec.specs.Executions.{count_with};
ghost use Rattle.kern_exec.specs.Executions.{under_way, start_of};

use crate::execution::{Current, Execution};
use crate::loading::Loading;
use std::alloc::{AllocError, Global};
use std::collections::VecDeque;
use std::marker::Model;
use std::mem;

/// How many executions can wait, at most.
pub const MOST_QUEUED: usize = 64;

/// The queue of executions that wait; the current one, which was taken from the queue and hasn't ended; the
/// address at which its run is to start, if it hasn't started yet; and the execution count.
#[derive(Drop)]
pub struct Executions {
    queue: VecDeque<Execution>,
    current: Option<Current>,
    pending: Option<u16>,
    count: u64,
}

impl Model for Executions {
    ghost use Rattle.std.specs.Prelude.{◌≤◌, length};
    ghost use Rattle.std.specs.VecDeque.{deque_capacity};
    ghost use Rattle.kern_exec.specs.Executions.{Work};

    ghost Value = { Work };

    ghost view = { λ e. record {
      queue = e.queue.items;
      current = e.current;
      pending = e.pending;
      count = e.count;
    } };

    // Room for all that can wait is allocated at the beginning.
    ghost invariant = { λ e. (length e.queue.items ≤ 64) × (64 ≤ deque_capacity e.queue) };
}

/// The execution count of an execution: one more than the count before it, or the same if it is silent or
/// stores no history.
pub fn count_with(execution: &Execution, count: u64) -> u64
    requires { count + 1 < 2 ^ 63 }
    ensures { result ≡ count_with execution.now count }
{
    if !execution.request.is_silent && execution.request.stores_history {
        count + 1
    } else {
        count
    }
}

fn under_way(execution: Execution, count: u64, loading: Loading) -> Option<Current>
    requires { count + 1 < 2 ^ 63 }
    ensures { result ≡ under_way execution count loading }
{
    match loading {
        Loading::Starts(_) => {
            let count = count_with(&execution, count);
            Some(Current { execution, count })
        }
        Loading::Ends(_) => {
            drop(execution);
            None
        }
    }
}

fn start_of(loading: Loading) -> Option<u16>
    ensures { result ≡ start_of loading }
{
    match loading {
        Loading::Starts(address) => Some(address),
        Loading::Ends(_) => None,
    }
}

impl Executions {
    /// No executions. Allocates room for all that can wait.
    pub fn new(alloc: Global) -> Result<Executions, AllocError>
        ensures { IfOk result (λ e. e ≡ nothing) }
    {
        let queue = VecDeque::with_capacity(alloc, MOST_QUEUED)?;
        Ok(Executions {
            queue,
            current: None,
            pending: None,
            count: 0,
        })
    }

    /// Whether the queue has room for one more.
    pub fn has_place(&self) -> bool
        ensures { result ≡ nat_lt (length self.now.queue) 64 }
    {
        self.queue.len() < MOST_QUEUED
    }

    /// The first execution of the queue.
    pub fn first(&self) -> Option<&Execution>
        ensures { MatchOption result (self.now.queue ≡ [])
            (λ x. self.now.queue ≡ x.now ∷ drop 1 self.now.queue) }
    {
        self.queue.front()
    }

    /// The address at which the run of the current execution is to start, if it hasn't started yet.
    pub fn pending_start(&self) -> Option<u16>
        ensures { result ≡ self.now.pending }
    {
        self.pending
    }

    /// The execution count: how many executions so far weren't silent and stored history.
    pub fn count(&self) -> u64
        ensures { result ≡ self.now.count }
    {
        self.count
    }

    /// The current execution.
    pub fn current(&self) -> Option<&Current>
        ensures { option_map (λ c. c.now) result ≡ self.now.current }
    {
        self.current.as_ref()
    }

    /// Adds an execution at the end of the queue.
    pub fn push(&mut self, execution: Execution)
        requires { length self.old.queue < 64 }
        ensures { self.new ≡ enqueue execution self.old }
    {
        self.queue.push_back_reserved(execution);
    }

    /// Takes the first execution from the queue after its cell was loaded with this result.
    pub fn take(&mut self, loading: Loading)
        requires nonempty { 0 < length self.old.queue }
        requires room { self.old.count + 1 < 2 ^ 63 }
        ensures { (x : Execution) (rest : List Execution) → self.old.queue ≡ x ∷ rest
            → self.new ≡ load_first x rest loading self.old }
    {
        let Some(execution) = self.queue.pop_front() else {
            return;
        };
        let count = count_with(&execution, self.count);
        let current = under_way(execution, self.count, loading);
        drop(mem::replace(&mut self.current, current));
        self.pending = start_of(loading);
        self.count = count;
    }

    /// Notes that the run of the current execution has started.
    pub fn begin(&mut self)
        ensures { self.new ≡ clear_pending self.old }
    {
        self.pending = None;
    }

    /// Notes that the current execution has ended.
    pub fn end(&mut self)
        ensures { self.new ≡ clear_current self.old }
    {
        drop(self.current.take());
    }
}
