// A counter that keeps a journal, with which the turnstile is tested and timed. Each accepted call adds one
// to the count, which is its reply. A call carries a mark of its caller's choice, which the journal keeps
// with the caller's seat. If memory runs out, or at its limit, the counter refuses the call and doesn't
// change. The tests run two threads of a thousand turns each.
#![tactic(auto)]

ghost use Rattle.std.specs.Prelude.{◌≡◌, [], length};

use lab_turn::journaled::Journaled;
use std::alloc::Global;
use std::marker::Model;
use thiserror::Error;

#[cfg(test)]
mod tests;

/// Why a call isn't counted.
#[derive(Clone, Copy, PartialEq, Eq, Debug, Error)]
pub enum CountFault {
    #[error("out of memory")]
    OutOfMemory,
    #[error("the counter is at its limit")]
    Full,
}

/// A counter with a limit, the seat and mark of each call that it counted, and a label, which is no
/// part of its journal.
#[derive(Debug, Drop)]
pub struct Counter {
    entries: Vec<(u32, u32)>,
    limit: u64,
    label: u32,
}

impl Model for Counter {
    ghost use Rattle.std.specs.Prelude.{◌≤◌, length};
    ghost use Rattle.lab_turn_tests.specs.Counts.{CounterState};

    ghost Value = { CounterState };

    ghost view = { λ c. record {
      entries = c.entries.items;
      limit = c.limit;
      label = c.label;
    } };

    ghost invariant = { λ c. length c.entries.items ≤ c.limit };
}

impl Counter {
    /// A counter with this limit and the label 0.
    pub fn new(alloc: Global, limit: u64) -> Counter
        ensures { result ≡ record { entries = []; limit = limit; label = 0 } }
    {
        Counter {
            entries: Vec::new(alloc),
            limit,
            label: 0,
        }
    }

    /// The same counter with this label.
    pub fn with_label(self, label: u32) -> Counter
        ensures { result ≡ record { entries = self.entries; limit = self.limit; label = label } }
    {
        Counter { label, ..self }
    }

    pub fn label(&self) -> u32
        ensures { result ≡ self.now.label }
    {
        self.label
    }

    /// The number of calls that were counted.
    pub fn value(&self) -> u64
        ensures { result ≡ length self.now.entries }
    {
        self.entries.len() as u64
    }

    /// The seat and the mark of each call, in order.
    pub fn entries(&self) -> &[(u32, u32)]
        ensures { result.now ≡ self.now.entries }
    {
        self.entries.as_slice()
    }
}

impl Journaled for Counter {
    type Call = u32;

    type Reply = Result<u64, CountFault>;

    ghost use Rattle.lab_turn_tests.specs.Counts.{answer_of, is_entry_of, is_full_of};

    ghost entries = { λ c. c.entries };

    ghost limit = { λ c. c.limit };

    ghost answer = { answer_of };

    ghost is_entry = { is_entry_of };

    ghost is_full = { is_full_of };

    fn act(&mut self, seat: u32, call: u32) -> Result<u64, CountFault> {
        let count = self.entries.len() as u64;
        if count >= self.limit {
            return Err(CountFault::Full);
        }
        match self.entries.push((seat, call)) {
            Ok(()) => Ok(count + 1),
            Err(_) => Err(CountFault::OutOfMemory),
        }
    }
}
