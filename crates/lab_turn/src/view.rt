//! What a pass knows. Only the rule speaks of these types: no value of them is ever made.
use std::collections::LinkedList;

pub struct View<C> {
    pub seat: u32,
    /// The number of seats.
    pub seats: u32,
    /// The limit of the value's journal.
    pub limit: u64,
    /// Whether it makes the other passes, and if so, how many passes there are.
    pub makes: bool,
    pub made: u32,
    /// The beginning of the history that it has seen.
    pub seen: LinkedList<(u32, C)>,
    /// Its own calls in the history.
    pub calls: LinkedList<C>,
    pub ticket: Option<u64>,
    /// While it has the value out of the slot: the entries that it found there.
    pub found: Option<LinkedList<(u32, C)>>,
    /// Whether it found no ticket left.
    pub out_of_tickets: bool,
    /// Whether it was joined to another pass.
    pub spent: bool,
    /// The passes that were joined to it.
    pub kept: LinkedList<Left<C>>,
}

/// What is kept of a pass that was joined to another.
pub struct Left<C> {
    pub seat: u32,
    pub seen: LinkedList<(u32, C)>,
    pub calls: LinkedList<C>,
}
