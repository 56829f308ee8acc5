//! Why a change by hand is refused.

use std::fmt;
use thiserror::Error;

/// Why a change by hand is refused.
#[derive(Clone, Copy, Error)]
pub enum PokeFault {
    /// The scope has no places that can be changed.
    BadReference,
    /// The scope has no place of this name.
    UnknownName,
    /// The text is no number of the assembler, or one that doesn't fit the place.
    BadValue,
}

impl fmt::Display for PokeFault {
    fn fmt<W: fmt::Write>(&self, f: &mut fmt::Formatter<W>) -> fmt::Result {
        let text = match self {
            PokeFault::BadReference => "only the references 1 and 5 can be changed",
            PokeFault::UnknownName => "there is no such register or address",
            PokeFault::BadValue => "the value is no number that fits there",
        };
        f.write_str(text)
    }
}

impl fmt::Debug for PokeFault {
    fn fmt<W: fmt::Write>(&self, f: &mut fmt::Formatter<W>) -> fmt::Result {
        fmt::Display::fmt(self, f)
    }
}
