//! Why a cell wasn't run to its end.
ghost use Rattle.std.specs.Prelude.{◌≡◌};
ghost use Rattle.lab_term.specs.Faults.{term_fault_of};

use jup_wire::message::WireFault;
use std::fmt;
use thiserror::Error;
use zmtp_wire::fault::StreamFault;
use zmtp_wire::peer_fault::PeerFault;

/// What is wrong with the bytes of a kernel.
#[derive(Clone, Copy, PartialEq, Eq, Error)]
pub enum WireCause {
    /// A stream is broken.
    Stream(StreamFault),
    /// A message on iopub doesn't open under the key.
    Message(WireFault),
}

impl fmt::Display for WireCause {
    fn fmt<W: fmt::Write>(&self, f: &mut fmt::Formatter<W>) -> fmt::Result {
        match self {
            WireCause::Stream(fault) => fmt::Display::fmt(fault, f),
            WireCause::Message(fault) => fmt::Display::fmt(fault, f),
        }
    }
}

impl fmt::Debug for WireCause {
    fn fmt<W: fmt::Write>(&self, f: &mut fmt::Formatter<W>) -> fmt::Result {
        fmt::Display::fmt(self, f)
    }
}

/// Why a cell wasn't run to its end.
#[derive(Clone, Copy, PartialEq, Eq, Error)]
pub enum TermFault {
    /// An allocation failed.
    OutOfMemory,
    /// A read came to the end.
    Ended,
    /// A read failed, or the last of 4,294,967,295 reads was made.
    ReadFailed,
    /// A write failed.
    WriteFailed,
    /// The bytes aren't those of a kernel.
    Wire(WireCause),
}

impl fmt::Display for TermFault {
    ghost use Rattle.lab_term.specs.Faults.{message_of};

    ghost output = { λ fault. message_of fault };

    fn fmt<W: fmt::Write>(&self, f: &mut fmt::Formatter<W>) -> fmt::Result {
        match self {
            TermFault::OutOfMemory => f.write_str("out of memory"),
            TermFault::Ended => f.write_str("the kernel ended the connection"),
            TermFault::ReadFailed => f.write_str("a read failed"),
            TermFault::WriteFailed => f.write_str("a write failed"),
            TermFault::Wire(cause) => fmt::Display::fmt(cause, f),
        }
    }
}

impl fmt::Debug for TermFault {
    fn fmt<W: fmt::Write>(&self, f: &mut fmt::Formatter<W>) -> fmt::Result {
        fmt::Display::fmt(self, f)
    }
}

/// The fault of the client for the end of a conversation with a peer.
pub(crate) fn term_fault_of(fault: PeerFault) -> TermFault
    ensures { result ≡ term_fault_of fault }
{
    match fault {
        PeerFault::OutOfMemory => TermFault::OutOfMemory,
        PeerFault::PeerEnded => TermFault::Ended,
        PeerFault::ReadFailed => TermFault::ReadFailed,
        PeerFault::WriteFailed => TermFault::WriteFailed,
        PeerFault::Wire(cause) => TermFault::Wire(WireCause::Stream(cause)),
    }
}
