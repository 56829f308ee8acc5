//! The places of a machine that are shown under names.

/// A place that can be changed by hand, or watched.
#[derive(Clone, Copy)]
pub enum Place {
    A,
    B,
    C,
    D,
    E,
    H,
    L,
    Sp,
    Pc,
    /// The byte at an address.
    Memory(u16),
}

/// A change of a place's value.
#[derive(Clone, Copy)]
pub struct PlaceChange {
    pub place: Place,
    pub before: u16,
    pub after: u16,
    /// The address of the instruction that changed it.
    pub by: u16,
}
