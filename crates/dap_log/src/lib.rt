// Log messages of breakpoints: text with expressions in braces, which stand for their values on a board.
// `LogMessage::parse` reads a text once, and returns what `message_of` says or its first fault;
// `LogMessage::text` writes it on a board. `laws` says that the text is the spelling of what was read, and
// that a text without braces is itself on every board.
#![tactic(auto)]

pub mod laws;
pub mod message;
mod part;
mod piece;
