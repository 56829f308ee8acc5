//! That cases tell what they are to tell.
use crate::history::play::wrong_in;
use std::alloc::{AllocError, AllocGlobal};
use std::process::Abort;

fn check_one(rt: &(impl Abort + AllocGlobal), case: &str) -> Result<(), AllocError> {
    let wrong = wrong_in(rt.alloc(), case)?;
    let (line, count) = wrong.unwrap_or((0, 0));
    assert!(rt; wrong.is_none(), "{case}: row {line} after {count} steps");
    Ok(())
}

/// Plays each of these cases. None may be wrong.
pub fn check(rt: &(impl Abort + AllocGlobal), cases: &[&str]) -> Result<(), AllocError> {
    for case in cases {
        check_one(rt, case)?;
    }
    Ok(())
}
