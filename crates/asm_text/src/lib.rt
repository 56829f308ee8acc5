// The text of a cell, read as statements (8080/8085 Assembly Language Programming Manual, chapters 2 to 4).
// `statements` returns one statement for each line up to END, or the text's first fault: a text that is
// too long; else the first line with a fault, and on it characters, numbers and strings before words, words
// before operands, operands before depth, depth before IFs; else an IF without its ENDIF. The text is read
// once, line by line. Tokens borrow from it, and the code doesn't recurse.
#![tactic(auto)]

pub mod conditional;
mod directives;
mod forms;
mod instructions;
mod lines;
pub mod open_if;
mod registers;
pub mod statements;
