// A debugger for one editor over bytes (Debug Adapter Protocol). `Debugger` takes the bodies of requests and
// returns bytes: for every list of requests and slices, what was sent and what waits to be sent are the
// messages of dap_record's definition, in order, as compact JSON in the base protocol's framing, numbered
// from 1 on. If memory runs out no more messages wait to be sent, but a debugger can't be used any more.
// `converse` answers all that an editor's source gives, in its order, each with the canonical path of the
// file that it names, and what it writes are these messages.
#![tactic(auto)]

pub mod conversation;
pub mod debugger;
pub mod incoming;
pub mod launch_text;
pub mod paths;
pub mod requests;
mod sending;
