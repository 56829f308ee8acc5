//! The operands after an operation: how many there are, and the meaning of a single one.
ghost use Rattle.std.specs.Prelude.{◌≡◌};
ghost use Rattle.asm_syntax.specs.Lexemes.{pieces_of};
ghost use Rattle.asm_syntax.specs.Outcome.{LineGives};
ghost use Rattle.asm_text.specs.Forms.{no_operand, one_operand, two_operands, only_expression, only_named};

use crate::registers::{Named, fit, named_operand};
use asm_lex::commas::{pair, single};
use asm_lex::expression::expression;
use asm_syntax::fault::{FaultKind, LineFault};
use asm_syntax::statement::Operand;
use asm_syntax::token::Placed;
use std::alloc::Global;

/// The value, if the operation has no operand; else `Operands` at its column, as in all of these.
pub fn no_operand<T: Drop>(column: usize, value: T, tokens: &[Placed]) -> Result<T, LineFault>
    ensures { LineGives (λ x. x) result (no_operand column value (pieces_of tokens.now)) }
{
    if tokens.is_empty() {
        Ok(value)
    } else {
        Err(LineFault::At {
            column,
            kind: FaultKind::Operands,
        })
    }
}

/// The operand, if the operation has one.
pub fn one_operand<'a>(
    column: usize,
    tokens: &'a [Placed<'a>],
) -> Result<&'a [Placed<'a>], LineFault>
    ensures { LineGives (λ x. pieces_of x.now) result (one_operand column (pieces_of tokens.now)) }
{
    fit(column, single(tokens))
}

/// The operands, if the operation has two.
pub fn two_operands<'a>(
    column: usize,
    tokens: &'a [Placed<'a>],
) -> Result<(&'a [Placed<'a>], &'a [Placed<'a>]), LineFault>
    ensures { LineGives (λ x. (pieces_of x.0.now, pieces_of x.1.now)) result
        (two_operands column (pieces_of tokens.now)) }
{
    fit(column, pair(tokens))
}

/// The expression, if the operation has one operand.
pub fn only_expression(
    alloc: Global,
    column: usize,
    tokens: &[Placed],
) -> Result<Operand, LineFault>
    ensures { LineGives (λ x. x) result (only_expression column (pieces_of tokens.now)) }
{
    expression(alloc, column, one_operand(column, tokens)?)
}

/// What the operand names, if the operation has one.
pub fn only_named<T: Named>(column: usize, tokens: &[Placed]) -> Result<T, LineFault>
    ensures { LineGives (λ x. x) result (only_named column T.meaning (pieces_of tokens.now)) }
{
    named_operand(column, one_operand(column, tokens)?)
}
