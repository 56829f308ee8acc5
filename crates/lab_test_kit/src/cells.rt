//! Cells that are too long to write out.
use std::alloc::{AllocError, Global};

/// 300 symbols from 0 on, as S0 to S299, each with its number as its value.
pub fn symbols(alloc: Global, letter: &str) -> Result<String, AllocError> {
    let mut text = String::new(alloc);
    for number in 0..300u32 {
        write!(text, "{letter}{number} EQU {number}\n")?;
    }
    Ok(text)
}
