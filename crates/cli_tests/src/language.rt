//! The assembly language, from the tokens of a line and operands to cells over earlier cells' symbols.

mod operands;
mod rows;
mod sessions;
mod texts;
mod tokens;
mod vocabulary;
