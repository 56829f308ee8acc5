//! Expressions of the assembler with reads of memory.
ghost use Rattle.std.specs.Prelude.{◌≡◌};
ghost use Rattle.asm_syntax.specs.Lexemes.{pieces_of};
ghost use Rattle.asm_syntax.specs.Outcome.{LineGives};
ghost use Rattle.asm_text.specs.Lines.{placed_well};
ghost use Rattle.dap_expr.specs.Terms.{column_of, term_in};

use crate::brackets::{Flat, Read, take_reads};
use asm_expr::expression::Expr;
use asm_lex::expression::expression;
use asm_lex::words::misplaced_word;
use asm_syntax::fault::{FaultKind, LineFault};
use asm_syntax::token::Placed;
use base_text::sequence::Sequence;
use std::alloc::Global;

/// Reads of memory, and the expression in which names stand for them.
#[derive(Drop)]
pub struct Term {
    pub reads: Sequence<Read>,
    pub tree: Expr,
}

fn placed_well(tokens: &[Placed<'_>]) -> Result<(), LineFault>
    ensures { LineGives (λ _. pieces_of tokens.now) result (placed_well (pieces_of tokens.now)) }
{
    match misplaced_word(tokens) {
        Some(column) => Err(LineFault::At {
            column,
            kind: FaultKind::Name,
        }),
        None => Ok(()),
    }
}

/// The column at which tokens begin, and 1 where there are none.
fn column_of(tokens: &[Placed<'_>]) -> usize
    ensures { result ≡ column_of (pieces_of tokens.now) }
{
    match tokens.first() {
        Some(placed) => placed.column.max(1),
        None => 1,
    }
}

/// The expression of tokens in the assembler's form, but for brackets.
#[tactic(auto, unfolding(crate::specs::Terms::term_in))]
pub(crate) fn term_in(alloc: Global, tokens: &[Placed<'_>]) -> Result<Term, LineFault>
    ensures { LineGives (λ e. e) result (term_in (pieces_of tokens.now)) }
{
    placed_well(tokens)?;
    let Flat { tokens, reads } = take_reads(alloc, tokens)?;
    let tree = expression(alloc, column_of(&tokens), &tokens)?.expr;
    let reads = Sequence::from(reads);
    Ok(Term { reads, tree })
}
