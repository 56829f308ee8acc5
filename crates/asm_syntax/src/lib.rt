// The vocabulary of the 8080 assembly language: its words, tokens, statements and faults. `keyword_of` knows
// the 113 words that can't be names, each with its meaning in the manual. A token is a piece of a line; a
// statement is what a line says, with the columns that faults name. These types are the interface between the
// crates that read text and those that assemble; nothing here reads text.
#![tactic(auto)]

pub mod fault;
pub mod keyword;
pub mod numeral;
pub mod statement;
pub mod token;
pub mod word;
