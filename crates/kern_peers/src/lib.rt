// The connections of a kernel: their numbers, channels, identities and subscriptions.
// Numbers count up from 1 in the order of the Joins, and none is used twice.
// `has_no_place` tells whether a channel is full or already has a connection with the identity.
// `subscribers` returns the connections that get an iopub post, `stdin_of` the one whose user can be asked.
// If memory runs out, nothing changes.
#![tactic(auto)]

pub mod peer;
pub mod peers;
