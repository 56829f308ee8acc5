// Expressions of the assembler over a board, with the names of the machine, reads of its memory, comparisons
// by signs, numbers like `0x5A`, and `!`, `&&` and `||` of truths. `Expression::parse` reads a text once, and
// returns what `expression_of` says; `Expression::value` is its value on a board, and takes no memory. `laws`
// says that a text that the assembler takes has the value that it has there.
#![tactic(auto)]

pub mod brackets;
pub mod clause;
pub mod expression;
mod hexadecimal;
pub mod laws;
mod names;
pub mod part;
pub mod term;
pub mod value;
mod words;
