//! Views as tests ask for them.
use base_text::text::Text;
use lab_views::view::View;
use std::alloc::{AllocError, Global};

/// What is asked.
#[derive(Clone, Copy)]
pub enum Ask {
    /// Frames from one on, and how many.
    Frames(u32, u32),
    Scopes(u32),
    /// The variables of a reference, from one on, and how many.
    Variables(u32, u32, u32),
    /// Code from an address on, and how many lines.
    Code(u16, u32),
    Source(&'static str),
    Info,
}

/// The view that is asked for.
pub fn view(alloc: Global, ask: Ask) -> Result<View, AllocError> {
    Ok(match ask {
        Ask::Frames(start, levels) => View::Frames { start, levels },
        Ask::Scopes(id) => View::Scopes(id),
        Ask::Variables(reference, start, count) => View::Variables {
            reference,
            start,
            count,
        },
        Ask::Code(address, count) => View::Code { address, count },
        Ask::Source(path) => View::Source(Text::copy_of(alloc, path)?),
        Ask::Info => View::Info,
    })
}
