//! How a board treats the twelve opcodes that Intel's table leaves undefined.

/// Whether the twelve undefined opcodes act (08, 10, 18, 20, 28, 30, 38, CB, D9, DD, ED and FD).
#[derive(Clone, Copy, PartialEq, Eq)]
pub enum Board {
    /// They are undefined, as Intel's manuals leave them.
    Strict,
    /// Each acts as the instruction that a real 8080 decodes it as: NOP, JMP, RET or CALL.
    Aliases,
}
