//! How the worker or a pump ends.

use kern_core::fault::KernelFault;
use zmtp_wire::fault::StreamFault;
use zmtp_wire::peer_fault::PeerFault;

/// How the worker or a pump ends.
#[derive(Clone, Copy, PartialEq, Eq)]
pub enum PumpEnd {
    OutOfMemory,
    /// The peer's stream ended.
    PeerEnded,
    /// A read failed, or 4,294,967,295 reads were made.
    ReadFailed,
    WriteFailed,
    /// The peer's stream broke the protocol.
    Wire(StreamFault),
    /// Posts that were to be written next are no longer kept.
    Lagged,
    JournalFull,
    /// The gate said no, or a shutdown has come and everything is written.
    Ended,
    /// A call was refused for another reason.
    Refused(KernelFault),
    /// The desk has no more turns.
    OutOfTickets,
}

impl From<PeerFault> for PumpEnd {
    ghost use Rattle.std.specs.Prelude.{◌≡◌};
    ghost use Rattle.kern_net.specs.Ends.{end_by_peer};

    ghost from_gives = { λ fault end. end ≡ end_by_peer fault };

    fn from(fault: PeerFault) -> PumpEnd {
        match fault {
            PeerFault::OutOfMemory => PumpEnd::OutOfMemory,
            PeerFault::PeerEnded => PumpEnd::PeerEnded,
            PeerFault::ReadFailed => PumpEnd::ReadFailed,
            PeerFault::WriteFailed => PumpEnd::WriteFailed,
            PeerFault::Wire(cause) => PumpEnd::Wire(cause),
        }
    }
}

impl From<KernelFault> for PumpEnd {
    ghost use Rattle.std.specs.Prelude.{◌≡◌};
    ghost use Rattle.kern_net.specs.Ends.{end_by_kernel};

    ghost from_gives = { λ fault end. end ≡ end_by_kernel fault };

    fn from(fault: KernelFault) -> PumpEnd {
        match fault {
            KernelFault::OutOfMemory => PumpEnd::OutOfMemory,
            KernelFault::JournalFull => PumpEnd::JournalFull,
            KernelFault::Lagged { .. } => PumpEnd::Lagged,
            KernelFault::Full | KernelFault::NoConnection => PumpEnd::Refused(fault),
        }
    }
}
