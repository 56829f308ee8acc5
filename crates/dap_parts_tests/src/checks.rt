//! What rows are compared by. The message about a wrong row is put together here for all of the crate's
//! tests, since doing so takes many cases of a proof.
use std::alloc::AllocError;
use std::process::Abort;

/// What was made, for which there must be memory.
pub fn made<T: Drop>(rt: &impl Abort, outcome: Result<T, AllocError>) -> T {
    match outcome {
        Ok(value) => value,
        Err(_) => rt.panic("there is no memory"),
    }
}

/// Stops where a row tells something else than it must.
pub fn expect(rt: &impl Abort, row: &str, told: &str, wanted: &str) {
    assert!(rt; told == wanted, "{row}: {told}");
}

/// The same of what was made, for which there must be memory.
pub fn expect_made(rt: &impl Abort, row: &str, told: Result<String, AllocError>, wanted: &str) {
    let told = made(rt, told);
    expect(rt, row, told.as_str(), wanted);
    drop(told);
}
