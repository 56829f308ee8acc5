//! What a cell is assembled to.

use crate::symbols::Symbols;

/// An assembled statement that gives bytes.
#[derive(Clone, Copy)]
pub struct Row {
    /// The address of its first byte.
    pub address: u16,
    /// The number of its bytes, at least 1.
    pub length: usize,
    /// Its line, from 1.
    pub line: usize,
}

/// What a cell is assembled to.
#[derive(Drop)]
pub struct Built {
    /// Each byte with its address, in the order of the statements. No address stands twice.
    pub image: Vec<(u16, u8)>,
    /// The statements that give bytes, in order.
    pub rows: Vec<Row>,
    /// The operand of END, if it has one: the address at which to start.
    pub start: Option<u16>,
    /// The symbols to keep: the ones that were kept, each replaced in its place if the cell defines
    /// it, then the cell's others in the order of definition.
    pub symbols: Symbols,
}
