//! How a run ends.

/// How a run of a program ended.
#[derive(Clone, Copy, PartialEq, Eq)]
pub enum Ending {
    /// HLT with interrupts off.
    Halted,
    /// HLT with interrupts on: the processor waits for a request.
    Waiting,
    /// The next opcode is undefined.
    Undefined(u8),
    /// The run had as many steps as it may have.
    Limit,
}
