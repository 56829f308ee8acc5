//! Directives: ORG, DB, DW, DS, IF, ELSE, ENDIF and END with their operands.
ghost use Rattle.std.specs.Prelude.{◌≡◌, ℕ, List, Bool, Result};
ghost use Rattle.std.specs.List.{list_all};
ghost use Rattle.asm_syntax.specs.Lexemes.{Piece, pieces_of};
ghost use Rattle.asm_syntax.specs.Outcome.{Fault, LineGives};
ghost use Rattle.asm_lex.specs.Commas.{operands_of, split_commas};
ghost use Rattle.asm_lex.specs.Shape.{is_expression};
ghost use Rattle.asm_lex.specs.Climb.{expression};
ghost use Rattle.asm_text.specs.Forms.{is_data, data_at, each_of, some_operands, end_of, directive_of};

use crate::forms::{no_operand, only_expression};
use asm_lex::commas::{next_operand, text};
use asm_lex::expression::expression;
use asm_lex::shape::is_expression;
use asm_lex::strings::string_bytes;
use asm_syntax::fault::{FaultKind, LineFault};
use asm_syntax::keyword::Directive;
use asm_syntax::statement::{Action, Data, Operand};
use asm_syntax::token::Placed;
use base_text::sequence::Sequence;
use std::alloc::Global;

// The fault of an operation at this column whose operands don't fit.
fn unfit(column: usize) -> LineFault
    ensures { result ≡ LineFault.At column FaultKind.Operands }
{
    LineFault::At {
        column,
        kind: FaultKind::Operands,
    }
}

// An operand of a directive that may have several.
trait Listed: Sized + Drop {
    // Which tokens are such an operand, and its meaning for an operation at a column.
    ghost fits: { List Piece → Bool };

    ghost reading: { ℕ → List Piece → Result Self Fault };

    fn fits(operand: &[Placed]) -> bool
        ensures { result ≡ fits (pieces_of operand.now) };

    fn read(alloc: Global, column: usize, operand: &[Placed]) -> Result<Self, LineFault>
        ensures { LineGives (λ x. x) result (reading column (pieces_of operand.now)) };
}

// An operand of DB: a string by itself, or an expression.
impl Listed for Data {
    ghost fits = { is_data };

    ghost reading = { data_at };

    fn fits(operand: &[Placed]) -> bool {
        text(operand).is_some() || is_expression(operand)
    }

    fn read(alloc: Global, column: usize, operand: &[Placed]) -> Result<Data, LineFault> {
        match text(operand) {
            Some(characters) => Ok(Data::Text(string_bytes(alloc, characters)?)),
            None => Ok(Data::Byte(expression(alloc, column, operand)?)),
        }
    }
}

// An operand of DW.
impl Listed for Operand {
    ghost fits = { is_expression };

    ghost reading = { expression };

    fn fits(operand: &[Placed]) -> bool {
        is_expression(operand)
    }

    fn read(alloc: Global, column: usize, operand: &[Placed]) -> Result<Operand, LineFault> {
        expression(alloc, column, operand)
    }
}

// Whether each operand fits.
fn all_fit<'a, T: Listed>(tokens: &'a [Placed<'a>]) -> bool
    ensures { result ≡ list_all T.fits (operands_of (pieces_of tokens.now)) }
{
    let mut left = Some(tokens);
    while let Some(operands) = left {
        let (first, rest) = next_operand(operands);
        if !T::fits(first) {
            return false;
        }
        left = rest;
    }
    true
}

fn list<'a, T: Listed>(
    alloc: Global,
    column: usize,
    tokens: &'a [Placed<'a>],
) -> Result<Sequence<T>, LineFault>
    ensures { LineGives (λ x. x) result (each_of (T.reading column) (operands_of (pieces_of tokens.now))) }
{
    let mut list = Vec::new(alloc);
    let mut left = Some(tokens);
    while let Some(operands) = left {
        let (first, rest) = next_operand(operands);
        list.push(T::read(alloc, column, first)?)?;
        left = rest;
    }
    Ok(Sequence::from(list))
}

// The operands of DB or DW, of which there is at least one.
fn some_operands<T: Listed>(
    alloc: Global,
    column: usize,
    tokens: &[Placed],
) -> Result<Sequence<T>, LineFault>
    ensures { LineGives (λ x. x) result
        (some_operands column T.fits (T.reading column) (pieces_of tokens.now)) }
{
    if tokens.is_empty() || !all_fit::<T>(tokens) {
        return Err(unfit(column));
    }
    list(alloc, column, tokens)
}

// The operand of END, if it has one.
fn end_of(alloc: Global, column: usize, tokens: &[Placed]) -> Result<Option<Operand>, LineFault>
    ensures { LineGives (λ x. x) result (end_of column (pieces_of tokens.now)) }
{
    if tokens.is_empty() {
        return Ok(None);
    }
    Ok(Some(only_expression(alloc, column, tokens)?))
}

/// The action of a directive at this column with the operands after it. EQU and SET are `Operands`
/// here: they need a name before them.
#[tactic(auto, unfolding(crate::specs::Forms::directive_of))]
pub fn directive(
    alloc: Global,
    column: usize,
    directive: Directive,
    tokens: &[Placed],
) -> Result<Action, LineFault>
    ensures { LineGives (λ x. x) result (directive_of column directive (pieces_of tokens.now)) }
{
    match directive {
        Directive::Origin => Ok(Action::Origin(only_expression(alloc, column, tokens)?)),
        Directive::Bytes => Ok(Action::Bytes(some_operands(alloc, column, tokens)?)),
        Directive::Words => Ok(Action::Words(some_operands(alloc, column, tokens)?)),
        Directive::Space => Ok(Action::Space(only_expression(alloc, column, tokens)?)),
        Directive::Equate | Directive::Set => Err(unfit(column)),
        Directive::If => Ok(Action::If(only_expression(alloc, column, tokens)?)),
        Directive::Else => no_operand(column, Action::Else, tokens),
        Directive::EndIf => no_operand(column, Action::EndIf, tokens),
        Directive::End => Ok(Action::End(end_of(alloc, column, tokens)?)),
    }
}
