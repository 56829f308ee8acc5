//! What a test shows, and what it must.
use crate::checks::{expect, expect_made};
use lab_test_kit::script::{Play, wrong_plays};
use std::alloc::{AllocError, AllocGlobal};
use std::process::Abort;

/// Stops where something else is told than what must be.
pub fn expect_told(
    rt: &impl Abort,
    about: &str,
    put: Result<(), AllocError>,
    told: String,
    wanted: &str,
) {
    match put {
        Ok(()) => expect(rt, about, told.as_str(), wanted),
        Err(_) => rt.panic("there is no memory"),
    }
    drop(told);
}

/// Stops where a play shows other lines.
pub fn expect_plays(rt: &(impl Abort + AllocGlobal), plays: &[Play]) {
    expect_made(rt, "other lines", wrong_plays(rt.alloc(), plays), "");
}
