//! The size of memory.

/// The number of bytes that a 16-bit address can name.
pub const MEMORY_SIZE: usize = 65_536;
