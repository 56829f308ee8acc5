// Where the threads of a server wait, and what wakes them. `Wakeups` has an event count for the worker
// and one for each writer; a thread that makes a call notifies those whom it concerns. `Slots` says which
// connection has which slot, and whose turn it is to leave. `Throttles` delays new connections and unsigned
// bytes as long as kern_pace says, `PeerStream` and `BeatStream` read accordingly. `clock` and `Stopwatch`
// tell the time. That threads wake one another is only tested.
#![tactic(auto)]

pub mod beat_stream;
pub mod clock;
pub mod event_count;
pub mod peer_stream;
pub mod port;
pub mod slots;
pub mod sockets;
pub mod stopwatch;
pub mod throttles;
pub mod unsigned;
pub mod wakeups;
