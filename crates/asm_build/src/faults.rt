//! Faults at their places.
ghost use Rattle.std.specs.Prelude.{◌≡◌};
ghost use Rattle.asm_build.specs.State.{fault_on_line};

use asm_syntax::fault::{AsmFault, FaultKind, LineFault};

/// The fault of a line, with the number of the line.
pub(crate) fn on_line(line: usize, fault: LineFault) -> AsmFault
    ensures { result ≡ fault_on_line line fault }
{
    match fault {
        LineFault::OutOfMemory => AsmFault::OutOfMemory,
        LineFault::At { column, kind } => AsmFault::At { line, column, kind },
    }
}

/// A fault at a column.
pub(crate) fn at(column: usize, kind: FaultKind) -> LineFault
    ensures { result ≡ LineFault.At column kind }
{
    LineFault::At { column, kind }
}
