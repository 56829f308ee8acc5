//! What all connections of a kernel share.

use kern_desk::seated::Desk;

/// The key and the session of all messages that a kernel reads and writes.
#[derive(Clone, Copy)]
pub struct Seal<'a> {
    /// The key of the signatures. If it is empty, none is checked and none is written.
    pub key: &'a [u8],
    /// The session's identifier in the headers.
    pub session: &'a str,
}

/// The desk of a kernel, and the seal of its messages.
#[derive(Clone, Copy)]
pub struct Server<'a> {
    pub desk: &'a Desk,
    pub seal: Seal<'a>,
}
