// Readers and writers whose bytes contracts can speak of. Contracts see an `Inlet` as the bytes that it has
// given and those that are left, and an `Outlet` as the bytes that it has taken, where these are known, and
// whether they ended or failed. `write_all` writes all the bytes, or a prefix of them and fails. `Source` and
// `Sink` are over memory; they move a limited number of bytes a call and fail at a chosen call. std's readers
// and writers are wrapped: a read or a write that is interrupted is tried again, in one place.
#![tactic(auto)]

mod counting;
pub mod memory;
pub mod ports;
pub mod std_io;
pub mod writing;
