//! The kernel.
ghost use Rattle.std.specs.Prelude.{◌≡◌, ◌≤◌, [], length, nat_le, IfOk, option_map, slice_get};
ghost use Rattle.kern_core.specs.Kernels.{is_entry, MakesCall};

use crate::state::KernelState;
use kern_calls::call::{Call, Reply};
use kern_calls::fault::KernelFault;
use std::alloc::{AllocError, Global};
use std::marker::Model;

/// A kernel: its state, and its journal, which is the list of the calls that led to that state.
pub struct Kernel {
    state: KernelState,
    entries: Vec<Call>,
    limit: u32,
}

// Written out so that kernels are dropped by one function, here and in the crates above.
impl Drop for Kernel {
    fn drop(self) {
        let Self {
            state: _,
            entries: _,
            limit: _,
        } = self;
    }
}

impl Model for Kernel {
    ghost use Rattle.kern_core.specs.Kernels.{JournalState, IsKept};

    ghost Value = { JournalState };

    ghost view = { λ k. record { entries = k.entries.items; limit = k.limit } };

    ghost invariant = { λ k. IsKept k.state k.entries.items k.limit };
}

/// Whether a call with this answer is an entry of the journal.
pub fn is_entry(answer: &Result<Reply, KernelFault>) -> bool
    ensures { result ≡ is_entry answer.now }
{
    !matches!(
        answer,
        Err(KernelFault::OutOfMemory | KernelFault::JournalFull)
    )
}

impl Kernel {
    /// A kernel whose journal is empty and can have at most `journal_limit` entries, from 1 to 4,194,304.
    pub fn new(alloc: Global, journal_limit: u32) -> Result<Kernel, AllocError>
        requires { (1 ≤ journal_limit) × (journal_limit ≤ 4194304) }
        ensures { IfOk result (λ kernel. kernel ≡ record { entries = []; limit = journal_limit }) }
    {
        let state = KernelState::new(alloc)?;
        Ok(Kernel {
            state,
            entries: Vec::new(alloc),
            limit: journal_limit,
        })
    }

    /// Makes a call, which becomes the last entry of the journal. If memory runs out or the journal is
    /// full, nothing changes. A full journal is reported even if there is no memory either.
    pub fn act(&mut self, call: Call) -> Result<Reply, KernelFault>
        ensures { MakesCall call self.old result self.new }
    {
        if self.entries.len() >= self.limit as usize {
            drop(call);
            return Err(KernelFault::JournalFull);
        }
        if self.entries.reserve(1).is_err() {
            drop(call);
            return Err(KernelFault::OutOfMemory);
        }
        let answer = self.state.make(&call);
        if is_entry(&answer) {
            self.entries.push_reserved(call);
            return answer;
        }
        drop(call);
        drop(answer);
        Err(KernelFault::OutOfMemory)
    }

    /// Whether the journal has the most entries that it can have.
    pub fn full(&self) -> bool
        ensures { result ≡ nat_le self.now.limit (length self.now.entries) }
    {
        self.limit as usize <= self.entries.len()
    }

    /// The entry at an index, from 0.
    pub fn entry(&self, place: usize) -> Option<&Call>
        ensures { option_map (λ call. call.now) result ≡ slice_get self.now.entries place }
    {
        self.entries.get(place)
    }
}
