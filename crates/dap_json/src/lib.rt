// The JSON of messages to an editor (Debug Adapter Protocol). `message_json` is that of a message with its
// number, in which lines and columns count as the editor counts them. `laws` says that it can be read again,
// and that bytes in it are read as these bytes. Writing allocates only for what a message carries.
#![tactic(auto)]

mod bodies;
mod events;
mod instructions;
pub mod json;
pub mod laws;
mod sources;
mod told;
mod variables;
