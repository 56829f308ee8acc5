// The disassembler: bytes as a listing, a text that assembles to these bytes. `line_at` returns the first
// line of bytes, `listing` all lines after an ORG. i80_listings_laws says that they agree, and that every
// listing is a cell that assembles without a fault, over any kept symbols, to its bytes at their places. What
// a line shows is a relation of bytes and lines, apart from the code.
#![tactic(auto)]

pub mod line;
pub mod listing;
mod mnemonic;
mod operand;
