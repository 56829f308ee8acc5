//! Calls that are made once more where memory was wanting.

use anyhow::{Error, Result};

/// Tells that a call had no memory.
pub fn tell_want(rt: &impl Print, call: &str) -> Result<()> {
    println!(rt; "out of memory: {call}")?;
    Ok(())
}

/// Ends a run, for a reason without numbers. It is put together here, since doing so takes many cases of a
/// proof.
pub fn fail<T>(why: &'static str) -> Result<T> {
    Err(Error::msg(why))
}

/// Why a run ends in which a call that was made once more had no memory again.
pub const TWICE: &str = "out of memory twice";

/// What a call gives that can fail by want of memory alone; it is made once more where it failed.
macro_rules! again {
    ($rt:expr, $name:expr, $call:expr) => {
        match $call {
            Ok(made) => made,
            Err(_) => {
                $crate::again::tell_want($rt, $name)?;
                $call?
            }
        }
    };
}

pub(crate) use again;
