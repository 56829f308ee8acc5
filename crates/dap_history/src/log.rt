//! The log of a run's inputs.
ghost use Rattle.std.specs.Prelude.{◌≡◌, ◌≤◌, ◌<◌, ◌+◌, ◌↔◌, [], ◌∷◌, ◌++◌, length, IsTrue, OnOk, OnErr, Err};
ghost use Rattle.dap_history.specs.Logs.{IsFullIf, Ascends, latest, up_to, later_than, size_of_input};
ghost use Rattle.dap_history.specs.Logs.{log_size};

use crate::fault::LogFault;
use crate::input::{Input, Recorded};
use std::alloc::Global;
use std::marker::Model;

/// The most bytes that a log counts: 64 for each input, and the bytes that it types or writes.
pub const LOG_LIMIT: usize = 4_194_304;

/// The inputs of a run in the order in which they came. Their counts of steps never fall.
#[derive(Drop)]
pub struct Log {
    entries: Vec<Recorded>,
    size: usize,
}

impl Model for Log {
    ghost use Rattle.std.specs.Prelude.{List, ◌≡◌, ◌≤◌};
    ghost use Rattle.dap_history.specs.declared.input.Recorded.{Recorded};
    ghost use Rattle.dap_history.specs.Logs.{Ascends, log_size};

    ghost Value = { List Recorded };

    ghost view = { λ l. l.entries.items };

    ghost invariant = { λ l. (Ascends 0 l.entries.items) × (l.size ≡ log_size l.entries.items)
        × (l.size ≤ 4194304) };
}

// How much an input counts.
fn size_of(input: &Input) -> usize
    ensures { result ≡ size_of_input input.now }
{
    match input {
        Input::Typed(bytes) => bytes.as_slice().len() + 64,
        Input::Write { bytes, .. } => bytes.as_slice().len() + 64,
        _ => 64,
    }
}

// How much inputs count together.
fn size_of_all(entries: &[Recorded]) -> usize
    requires { log_size entries.now ≤ 4194304 }
    ensures { result ≡ log_size entries.now }
{
    let mut size = 0usize;
    for entry in entries {
        size += size_of(&entry.input);
    }
    size
}

// Drops the inputs that came after more than `count` steps.
fn keep_up_to(entries: &mut Vec<Recorded>, count: u64)
    ensures { entries.new.items ≡ up_to count entries.old.items }
{
    entries.retain(move |entry| entry.count <= count);
}

/// Of inputs in order, those that came after more than `count` steps.
pub fn later(entries: &[Recorded], count: u64) -> &[Recorded]
    requires { Ascends 0 entries.now }
    ensures { result.now ≡ later_than count entries.now }
{
    let mut rest = entries;
    while let Some((first, later)) = rest.split_first() {
        if first.count > count {
            break;
        }
        rest = later;
    }
    rest
}

impl Log {
    /// A log without inputs. It doesn't allocate.
    pub fn new(alloc: Global) -> Log
        ensures { result ≡ [] }
    {
        Log {
            entries: Vec::new(alloc),
            size: 0,
        }
    }

    /// The inputs in order.
    pub fn entries(&self) -> &[Recorded]
        ensures entries { result.now ≡ self.now }
        ensures ascends { Ascends 0 result.now }
    {
        self.entries.as_slice()
    }

    /// Appends an input, which must not come before the last one.
    ///
    /// # Errors
    ///
    /// `Full` if the log would count more than 4,194,304 bytes, else `OutOfMemory`. The log is unchanged.
    pub fn append(&mut self, count: u64, input: Input) -> Result<(), LogFault>
        requires { latest self.old ≤ count }
        ensures ok { OnOk result (self.new ≡ self.old ++ record { count = count; input = input } ∷ []) }
        ensures err { OnErr result (self.new ≡ self.old) }
        ensures full { IsFullIf result input self.old }
    {
        let size = self.size.saturating_add(size_of(&input));
        if size > LOG_LIMIT {
            return Err(LogFault::Full);
        }
        self.entries.reserve(1)?;
        self.entries.push_reserved(Recorded { count, input });
        self.size = size;
        Ok(())
    }

    /// Forgets the inputs that came after more than `count` steps. Returns whether there were any.
    pub fn forget_after(&mut self, count: u64) -> bool
        ensures kept { self.new ≡ up_to count self.old }
        ensures latest { latest self.new ≤ count }
        ensures forgotten { IsTrue result ↔ (length self.new < length self.old) }
    {
        let before = self.entries.len();
        keep_up_to(&mut self.entries, count);
        self.size = size_of_all(self.entries.as_slice());
        self.entries.len() < before
    }

    /// The inputs that came after more than `count` steps.
    pub fn later_than(&self, count: u64) -> &[Recorded]
        ensures { result.now ≡ later_than count self.now }
    {
        later(self.entries.as_slice(), count)
    }
}
