// The debugger for editors over a byte stream (Debug Adapter Protocol): standard streams, or one
// connection. One thread reads and decodes, and puts the bodies of messages into an inbox, where at most 64
// wait; another answers them, makes slices of a run between two of them, and sleeps at the inbox when there
// is nothing to do. Eight look up files for it, of which it gives up one that doesn't answer in two seconds.
// Contracts say what the decoded stream gives and what a conversation sends (dap_stream, dap_debugger), and
// what is told of a file; that the threads wake one another is only tested.
#![tactic(auto)]

mod files;
mod inbox;
mod lookups;
mod reader;
pub mod server;
mod writer;
