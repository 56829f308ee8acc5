//! What editors are told that no session of theirs tells: the greatest numbers, texts with quotes, places
//! beside each other, and lists without items. Everything is tested through `message_json`, and was written
//! by hand from the schema of the Debug Adapter Protocol. What sessions tell is played by the clients.

mod bodies;
mod compared;
mod events;
