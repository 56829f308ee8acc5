//! A hint that a branch is rarely taken.

/// Marks the branch that calls it as cold, so the compiler lays it out away from the hot path.
#[cold]
#[inline(never)]
pub(crate) fn cold_path() {}
