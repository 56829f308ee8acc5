//! Assertions on a row of a test.

use std::process::Abort;

/// Fails the test unless `holds`, with what is wrong, in which row, and a number that was found there.
pub fn expect_at<R: Abort>(rt: &R, holds: bool, wrong: &str, row: usize, number: u64) {
    assert!(rt; holds, "row {row}: {wrong} ({number})");
}
