//! Expressions over a board.
ghost use Rattle.std.specs.Prelude.{◌≡◌};
ghost use Rattle.asm_syntax.specs.Lexemes.{pieces_of};
ghost use Rattle.asm_syntax.specs.Outcome.{LineGives};
ghost use Rattle.dap_expr.specs.Expressions.{expression_in, with_hexadecimal, expression_of};

use crate::clause::{Clause, clauses};
use crate::hexadecimal::assembler_text;
use crate::words::expression_pieces;
use asm_lex::lexer::tokens;
use asm_syntax::fault::{FaultKind, LineFault};
use asm_syntax::token::Placed;
use base_text::sequence::Sequence;
use std::alloc::Global;

/// The greatest length of a text in bytes.
const MOST_BYTES: usize = 1024;

/// An expression that was read once.
#[derive(Drop)]
pub struct Expression {
    pub clauses: Sequence<Clause>,
}

/// The expression of the assembler's tokens.
#[tactic(auto, unfolding(crate::specs::Expressions::expression_in))]
fn expression_in(alloc: Global, tokens: &[Placed<'_>]) -> Result<Expression, LineFault>
    ensures { LineGives (λ e. e) result (expression_in (pieces_of tokens.now)) }
{
    let tokens = expression_pieces(alloc, tokens)?;
    let clauses = Sequence::from(clauses(alloc, &tokens)?);
    Ok(Expression { clauses })
}

/// The expression of a text with numbers that begin with `0x`.
fn with_hexadecimal(alloc: Global, text: &[u8]) -> Result<Expression, LineFault>
    ensures { LineGives (λ e. e) result (with_hexadecimal text.now) }
{
    let text = assembler_text(alloc, text)?;
    let tokens = tokens(alloc, &text)?;
    expression_in(alloc, &tokens)
}

impl Expression {
    /// Reads an expression. A text that the assembler's lexer refuses is read again with each number that
    /// begins with `0x` as the assembler has it.
    #[tactic(auto, unfolding(crate::specs::Expressions::expression_of))]
    pub fn parse(alloc: Global, text: &str) -> Result<Expression, LineFault>
        ensures { LineGives (λ e. e) result (expression_of text.now) }
    {
        if text.len() > MOST_BYTES {
            return Err(LineFault::At {
                column: 1,
                kind: FaultKind::TooLong,
            });
        }
        match tokens(alloc, text.as_bytes()) {
            Ok(tokens) => expression_in(alloc, &tokens),
            Err(LineFault::OutOfMemory) => Err(LineFault::OutOfMemory),
            Err(LineFault::At { .. }) => with_hexadecimal(alloc, text.as_bytes()),
        }
    }
}
