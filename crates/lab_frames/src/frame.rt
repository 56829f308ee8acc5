//! One live call.

/// A call or an accepted request that has not ended.
#[derive(Clone, Copy, PartialEq, Eq)]
pub struct Frame {
    /// The address of the return address on the stack: SP after the push.
    pub slot: u16,
    /// The address that was called.
    pub target: u16,
    /// The address of the call instruction, or the PC that the acceptance pushed.
    pub site: u16,
}
