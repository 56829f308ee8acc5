//! What changes a run from outside.

use base_text::sequence::Bytes;
use i80_exec::registers::Registers;

/// An input of a run, or a change of its machine by hand.
#[derive(Drop)]
pub enum Input {
    /// Bytes typed at the console.
    Typed(Bytes),
    /// The front panel's eight switches.
    Switches(u8),
    /// The front panel's button n. A press that the board refuses changes nothing.
    Press(u8),
    /// The registers, set by hand.
    Registers(Registers),
    /// Bytes written to memory by hand, from an address on.
    Write { address: u16, bytes: Bytes },
}

/// An input, and how many steps the run had made when it came.
#[derive(Drop)]
pub struct Recorded {
    pub count: u64,
    pub input: Input,
}
