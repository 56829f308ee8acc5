// The tokens of a line of 8080 assembly language, and the operands in the tokens after an operation.
// `tokens` returns the tokens that the line spells, or its first fault at its column; asm_laws says that each
// line spells one list or one fault. Tokens borrow from the line; time is proportional to its length.
// `misplaced_word` finds the leftmost word that can't stand where it does; `next_operand` splits at commas;
// `expression` builds a tree by the precedence of its operators, at most 64 deep.
#![tactic(auto)]

mod class;
pub mod commas;
pub mod expression;
pub mod lexer;
pub mod number;
mod operators;
mod quote;
pub mod shape;
pub mod strings;
pub mod words;
