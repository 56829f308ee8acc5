// Calls on a kernel, their replies, and why they fail: what everybody who uses a kernel names.
// A call owns the request, the identity or the subscription that it delivers. A Slice is 16 bytes long, since
// a running cell makes tens of thousands of them a second.
// This crate has types alone; kern_core says what each call does, and which fault it has when.
#![tactic(auto)]

pub mod call;
pub mod fault;
