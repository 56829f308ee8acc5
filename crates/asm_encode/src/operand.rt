//! The values of operands.
ghost use Rattle.std.specs.Prelude.{◌≡◌};
ghost use Rattle.asm_expr.specs.Value.{value_of};
ghost use Rattle.asm_syntax.specs.Outcome.{LineGives};
ghost use Rattle.asm_encode.specs.Values.{or_fault, as_byte, vector, number, byte, restart};

use asm_expr::env::Env;
use asm_expr::evaluation::{ExprFault, value};
use asm_syntax::fault::{FaultKind, LineFault};
use asm_syntax::statement::Operand;
use i80_base::instruction::Vector;

/// The value of an operand. A name without a value is the fault `missing`, a division by zero `Divisor`.
pub fn number_or<E: Env>(
    names: &E,
    here: u16,
    operand: &Operand,
    missing: FaultKind,
) -> Result<u16, LineFault>
    ensures { LineGives (λ v. v) result (or_fault missing operand.now.column
        (value_of (E.values names.now) here operand.now.expr)) }
{
    let column = operand.column;
    match value(&operand.expr, names, here) {
        Ok(v) => Ok(v),
        Err(ExprFault::Undefined) => Err(LineFault::At {
            column,
            kind: missing,
        }),
        Err(ExprFault::Divisor) => Err(LineFault::At {
            column,
            kind: FaultKind::Divisor,
        }),
    }
}

// The same, where a name without a value is `Undefined`.
pub(crate) fn number<E: Env>(names: &E, here: u16, operand: &Operand) -> Result<u16, LineFault>
    ensures { LineGives (λ v. v) result (number (E.values names.now) here operand.now) }
{
    number_or(names, here, operand, FaultKind::Undefined)
}

fn as_byte(column: usize, value: u16) -> Result<u8, LineFault>
    ensures { LineGives (λ b. b) result (as_byte column value) }
{
    if value < 256 || value >= 65_280 {
        Ok((value % 256) as u8)
    } else {
        Err(LineFault::At {
            column,
            kind: FaultKind::ByteRange,
        })
    }
}

// The value of an operand that is a byte: 0 to 0FFH, or -256 to -1. Any other is `ByteRange`.
pub(crate) fn byte<E: Env>(names: &E, here: u16, operand: &Operand) -> Result<u8, LineFault>
    ensures { LineGives (λ b. b) result (byte (E.values names.now) here operand.now) }
{
    let v = number(names, here, operand)?;
    as_byte(operand.column, v)
}

fn vector(value: u16) -> Option<Vector>
    ensures { result ≡ vector value }
{
    match value {
        0 => Some(Vector::V0),
        1 => Some(Vector::V1),
        2 => Some(Vector::V2),
        3 => Some(Vector::V3),
        4 => Some(Vector::V4),
        5 => Some(Vector::V5),
        6 => Some(Vector::V6),
        7 => Some(Vector::V7),
        _ => None,
    }
}

// The vector of RST, from 0 to 7. Any other value is `ByteRange`.
pub(crate) fn restart<E: Env>(names: &E, here: u16, operand: &Operand) -> Result<Vector, LineFault>
    ensures { LineGives (λ n. n) result (restart (E.values names.now) here operand.now) }
{
    let v = number(names, here, operand)?;
    match vector(v) {
        Some(n) => Ok(n),
        None => Err(LineFault::At {
            column: operand.column,
            kind: FaultKind::ByteRange,
        }),
    }
}
