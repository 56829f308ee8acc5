// The kernel as a server on five TCP ports (Jupyter messaging 5.4). `serve` serves the listeners that `bind`
// bound, until a shutdown or a full journal, up to sixteen connections a port; the thread that calls it
// becomes the worker. A connection thread runs kern_host's `visit` for one connection after another and makes
// no other calls (`VisitsEach`), so what is proved of a connection of `host` holds of each. Only tested: the
// bytes of sockets, the clock, how long gates and hooks wait, and that threads wake one another. The desk is
// never closed: the server ends with its process.
#![tactic(auto)]

mod admission;
mod beats;
mod connection;
pub mod fault;
mod gates;
pub mod host;
pub mod listeners;
pub mod server;
mod spare;
pub mod system;
mod tasks;
