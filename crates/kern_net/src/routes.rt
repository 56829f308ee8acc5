//! The routes between a connection and a desk.
use jup_wire::channel::Channel;
use kern_desk::seated::Desk;

/// The connection from which messages come, their key, and the desk at which their calls are made.
#[derive(Clone, Copy)]
pub struct IncomingRoute<'a> {
    pub desk: &'a Desk,
    /// The connection's number, as its Join returned it.
    pub connection: u32,
    /// The channel of its Join.
    pub channel: Channel,
    /// The key of the signatures. If it is empty, none is checked.
    pub key: &'a [u8],
}

/// The desk at which posts are fetched, the connection to which they go, their key and their session.
#[derive(Clone, Copy)]
pub struct OutgoingRoute<'a> {
    pub desk: &'a Desk,
    /// The connection's number, as its Join returned it.
    pub connection: u32,
    /// The key of the signatures. If it is empty, they are empty.
    pub key: &'a [u8],
    /// The session's identifier in the headers.
    pub session: &'a str,
}
