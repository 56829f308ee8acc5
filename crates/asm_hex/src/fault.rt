//! What can be wrong with Intel HEX.
ghost use Rattle.std.specs.Prelude.{◌≡◌};
ghost use Rattle.asm_hex.specs.Faults.{fault_name};

use std::alloc::{AllocError, AllocFailed};
use std::fmt;
use thiserror::Error;

/// What is wrong with a line, or with the file.
#[derive(Clone, Copy, PartialEq, Eq, Error)]
pub enum HexFaultKind {
    /// A file of more than 1,048,576 bytes.
    TooLong,
    /// A line that doesn't begin with a colon.
    Record,
    /// A character that is no hexadecimal digit, or an odd number of digits.
    Digit,
    /// A count that isn't the number of the bytes, or that the kind of the record doesn't allow.
    Length,
    /// A sum that isn't 0 modulo 256.
    Checksum,
    /// A record of an unknown kind, or with a base that isn't 0.
    Kind,
    /// A byte past the last address, FFFF.
    PastEnd,
    /// A second byte at an address.
    Overlap,
    /// A record behind the end record.
    AfterEnd,
    /// No end record.
    NoEnd,
}

impl HexFaultKind {
    /// The fault in one word, as it is shown after a line.
    pub fn name(self) -> &'static str
        ensures { result.now ≡ fault_name self }
    {
        match self {
            HexFaultKind::TooLong => "TooLong",
            HexFaultKind::Record => "Record",
            HexFaultKind::Digit => "Digit",
            HexFaultKind::Length => "Length",
            HexFaultKind::Checksum => "Checksum",
            HexFaultKind::Kind => "Kind",
            HexFaultKind::PastEnd => "PastEnd",
            HexFaultKind::Overlap => "Overlap",
            HexFaultKind::AfterEnd => "AfterEnd",
            HexFaultKind::NoEnd => "NoEnd",
        }
    }
}

impl fmt::Display for HexFaultKind {
    fn fmt<W: fmt::Write>(&self, f: &mut fmt::Formatter<W>) -> fmt::Result {
        f.write_str(self.name())
    }
}

impl fmt::Debug for HexFaultKind {
    fn fmt<W: fmt::Write>(&self, f: &mut fmt::Formatter<W>) -> fmt::Result {
        fmt::Display::fmt(self, f)
    }
}

/// Why a line isn't read: out of memory, or its fault.
#[derive(Clone, Copy, Debug, PartialEq, Eq, Error)]
pub(crate) enum LineFault {
    #[error("OutOfMemory")]
    OutOfMemory,
    #[error("{0}")]
    Is(HexFaultKind),
}

impl From<AllocError> for LineFault {
    ghost use Rattle.asm_hex.specs.declared.fault.LineFault.TheVariants.{OutOfMemory};

    ghost from_gives = { λ _ fault. fault ≡ OutOfMemory };

    fn from(_: AllocError) -> LineFault {
        LineFault::OutOfMemory
    }
}

/// Why a file isn't read: out of memory, or its first fault, at a line, from 1.
#[derive(Clone, Copy, Debug, PartialEq, Eq, Error)]
pub enum HexFault {
    #[error("OutOfMemory")]
    OutOfMemory,
    #[error("{line} {kind}")]
    At { line: usize, kind: HexFaultKind },
}

impl From<AllocError> for HexFault {
    ghost use Rattle.asm_hex.specs.declared.fault.HexFault.TheVariants as hex;

    ghost from_gives = { λ _ fault. fault ≡ hex.OutOfMemory };

    fn from(_: AllocError) -> HexFault {
        HexFault::OutOfMemory
    }
}

impl<T: Drop> From<AllocFailed<T>> for LineFault {
    ghost use Rattle.asm_hex.specs.declared.fault.LineFault.TheVariants.{OutOfMemory};

    ghost from_gives = { λ _ fault. fault ≡ OutOfMemory };

    fn from(_: AllocFailed<T>) -> LineFault {
        LineFault::OutOfMemory
    }
}
