//! What can be asked of a board.

use base_text::text::Text;

/// A view of a board.
#[derive(Drop)]
pub enum View {
    /// Frames of the stopped run, from `start` on, where 0 is the innermost: at most `levels`, and at
    /// most 64. 0 levels mean 64.
    Frames {
        start: u32,
        levels: u32,
    },
    /// Whether there is a frame of this id, counted from 1: each has the same five scopes.
    Scopes(u32),
    /// The variables of a scope: 1 registers, 2 flags, 3 devices, 4 symbols, 5 memory. Of symbols and
    /// memory at most `count`, and at most 256, from `start` on. A count of 0 means 256 symbols or 16
    /// bytes.
    Variables {
        reference: u32,
        start: u32,
        count: u32,
    },
    /// `count` lines of disassembly from an address on, at most 256.
    Code {
        address: u16,
        count: u32,
    },
    /// The text that is kept under a path.
    Source(Text),
    /// Whether a debugger is attached and the run stopped, and the breakpoints.
    Info,
}
