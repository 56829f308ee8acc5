//! Where the byte at an address comes from.

/// The statement that a byte in memory was loaded for.
#[derive(Clone, Copy)]
pub struct Origin {
    /// The number that the load gave its source.
    pub source: u32,
    /// The line of the statement in its source, from 1.
    pub line: usize,
    /// Whether the byte is the first of its statement.
    pub is_first: bool,
}
