//! What rows are compared by. The message about a wrong row is put together here for all of the crate's
//! tests, since doing so takes many cases of a proof.
use std::process::Abort;

/// Stops where a row isn't as it must be, given its number.
pub fn expect_row(rt: &impl Abort, is_so: bool, row: usize) {
    assert!(rt; is_so, "row {row}");
}
