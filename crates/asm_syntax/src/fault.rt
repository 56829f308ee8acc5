//! What can be wrong with a cell.
ghost use Rattle.std.specs.Prelude.{◌≡◌};
ghost use Rattle.asm_syntax.specs.Faults.{fault_name};

use std::alloc::{AllocError, AllocFailed};
use std::fmt;
use thiserror::Error;

/// What is wrong at a place in a cell.
#[derive(Clone, Copy, PartialEq, Eq, Error)]
pub enum FaultKind {
    /// A character that is only allowed in comments.
    Character,
    /// A number above 65,535, or with a digit that its base doesn't have.
    Number,
    /// A string that isn't closed, is empty or too long, or has a character that isn't allowed in strings.
    Text,
    /// A word that can't be a name, where one must stand.
    Name,
    /// No mnemonic or directive where one must stand.
    Mnemonic,
    /// Operands that the operation doesn't have.
    Operands,
    /// IF, ELSE and ENDIF that don't match: at the end of the text, or at a word.
    Conditional { is_missing_endif: bool },
    /// A cell of more than 1,048,576 bytes or 65,537 lines.
    TooLong,
    /// A name without a value.
    Undefined,
    /// A division by zero.
    Divisor,
    /// An expression deeper than 64.
    Nesting,
    /// A second definition of a name.
    Twice,
    /// A value that is needed before its definition, or a definition that comes too late.
    Early,
    /// A value that doesn't fit in a byte, or isn't the number of a restart.
    ByteRange,
    /// A second byte at an address.
    Overlap,
    /// A byte past the last address, 0FFFFH.
    PastEnd,
}

impl FaultKind {
    /// The fault in one word, as it is shown after a line and a column.
    pub fn name(self) -> &'static str
        ensures { result.now ≡ fault_name self }
    {
        match self {
            FaultKind::Character => "Character",
            FaultKind::Number => "Number",
            FaultKind::Text => "Text",
            FaultKind::Name => "Name",
            FaultKind::Mnemonic => "Mnemonic",
            FaultKind::Operands => "Operands",
            FaultKind::Conditional { .. } => "Conditional",
            FaultKind::TooLong => "TooLong",
            FaultKind::Undefined => "Undefined",
            FaultKind::Divisor => "Divisor",
            FaultKind::Nesting => "Nesting",
            FaultKind::Twice => "Twice",
            FaultKind::Early => "Early",
            FaultKind::ByteRange => "ByteRange",
            FaultKind::Overlap => "Overlap",
            FaultKind::PastEnd => "PastEnd",
        }
    }
}

impl fmt::Display for FaultKind {
    fn fmt<W: fmt::Write>(&self, f: &mut fmt::Formatter<W>) -> fmt::Result {
        f.write_str(self.name())
    }
}

impl fmt::Debug for FaultKind {
    fn fmt<W: fmt::Write>(&self, f: &mut fmt::Formatter<W>) -> fmt::Result {
        fmt::Display::fmt(self, f)
    }
}

/// Why a line has no statement: out of memory, or a fault at a column, from 1.
#[derive(Clone, Copy, Debug, PartialEq, Eq, Error)]
pub enum LineFault {
    #[error("OutOfMemory")]
    OutOfMemory,
    #[error("{column} {kind}")]
    At { column: usize, kind: FaultKind },
}

impl From<AllocError> for LineFault {
    ghost use Rattle.asm_syntax.specs.declared.fault.LineFault.TheVariants.{OutOfMemory};

    ghost from_gives = { λ _ fault. fault ≡ OutOfMemory };

    fn from(_: AllocError) -> LineFault {
        LineFault::OutOfMemory
    }
}

impl<T: Drop> From<AllocFailed<T>> for LineFault {
    ghost use Rattle.asm_syntax.specs.declared.fault.LineFault.TheVariants.{OutOfMemory};

    ghost from_gives = { λ _ fault. fault ≡ OutOfMemory };

    fn from(_: AllocFailed<T>) -> LineFault {
        LineFault::OutOfMemory
    }
}

/// Why a cell isn't assembled: out of memory, or a fault at a line and a column, from 1.
#[derive(Clone, Copy, Debug, PartialEq, Eq, Error)]
pub enum AsmFault {
    #[error("OutOfMemory")]
    OutOfMemory,
    #[error("{line}:{column} {kind}")]
    At {
        line: usize,
        column: usize,
        kind: FaultKind,
    },
}

impl From<AllocError> for AsmFault {
    ghost use Rattle.asm_syntax.specs.declared.fault.AsmFault.TheVariants as asm;

    ghost from_gives = { λ _ fault. fault ≡ asm.OutOfMemory };

    fn from(_: AllocError) -> AsmFault {
        AsmFault::OutOfMemory
    }
}

impl<T: Drop> From<AllocFailed<T>> for AsmFault {
    ghost use Rattle.asm_syntax.specs.declared.fault.AsmFault.TheVariants as asm;

    ghost from_gives = { λ _ fault. fault ≡ asm.OutOfMemory };

    fn from(_: AllocFailed<T>) -> AsmFault {
        AsmFault::OutOfMemory
    }
}
