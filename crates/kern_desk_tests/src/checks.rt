//! What rows are compared by. The message about a wrong row is put together here for all of the crate's
//! tests, since doing so takes many cases of a proof.
use std::process::Abort;

/// Stops where something isn't as it must be, with what is otherwise and a number.
pub fn expect_at(rt: &impl Abort, is_so: bool, otherwise: &str, number: u64) {
    assert!(rt; is_so, "{otherwise} {number}");
}
