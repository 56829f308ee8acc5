//! An IF that is open.

/// The most IFs that may be open at once.
pub const MOST_OPEN: usize = 16;

/// An open IF: the line and column of its word, and whether its ELSE came.
#[derive(Clone, Copy)]
pub struct OpenIf {
    pub line: usize,
    pub column: usize,
    pub has_else: bool,
}
