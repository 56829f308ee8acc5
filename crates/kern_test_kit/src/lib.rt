// For the crates that test kernels: calls as plain data, which can be repeated, messages as they come over
// a wire, and the names of replies. It has no contracts, and only tests use it.
#![tactic(auto)]

pub mod actions;
pub mod messages;
pub mod names;
