// What an editor shows of a board's variables, completions of names, and symbols by parts of their names.
// `variables` gives the rows of the board's views, in the format that is asked for, each with an expression
// for its value and the address of a memory window on it; the register pairs; and the words of the stack,
// with the routine behind each return address. `complete` gives the names that begin with the word before a
// column, `symbols_text` the symbols that have a part in their names. By `laws` all rows of views are shown.
#![tactic(auto)]

pub mod completion;
mod frame;
pub mod laws;
mod rows;
pub mod scopes;
mod stack;
pub mod symbols;
mod texts;
