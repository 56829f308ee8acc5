// Assembles the statements of a cell over the kept symbols. `build` returns the bytes, their lines, the start
// and the symbols of the cell's one consistent reading, or else the first fault: first of the layout, line by
// line, then of the values, line by line. asm_laws says by conditions on readings where each fault is, and
// which of several is returned. `Symbols` are names with their values, in the order of definition; those that
// are passed in don't change.
#![tactic(auto)]

pub mod built;
pub mod cell;
mod faults;
mod image;
pub mod laid;
mod layout;
mod look_up;
mod name_set;
mod parts;
mod statements;
pub mod symbols;
mod values;
