//! How a visit ends.

use kern_core::fault::KernelFault;
use kern_net::end::PumpEnd;
use zmtp_wire::peer_fault::PeerFault;

/// Why no Leave was made.
#[derive(Clone, Copy, PartialEq, Eq)]
pub enum LeaveFault {
    /// The journal takes no more calls.
    JournalFull,
    /// The desk has no more turns.
    OutOfTickets,
}

/// How a connection that had joined ended: how its reading and its writing ended, and whether it left.
#[derive(Clone, Copy, PartialEq, Eq)]
pub struct Ends {
    pub reading: PumpEnd,
    /// None if nothing was to be written.
    pub writing: Option<PumpEnd>,
    pub leave: Result<(), LeaveFault>,
}

/// How a visit ended.
#[derive(Clone, Copy, PartialEq, Eq)]
pub enum VisitEnd {
    /// The handshake failed.
    NoHandshake(PeerFault),
    /// The peer's Join failed.
    NoJoin(KernelFault),
    /// The peer joined, and was served.
    Served(Ends),
}
