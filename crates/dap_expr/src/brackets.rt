//! Reads of memory, which are taken out of an expression.
ghost use Rattle.std.specs.Prelude.{◌≡◌, ◌<◌, [], length, option_map, IfSome, IfOk};
ghost use Rattle.asm_syntax.specs.Lexemes.{lexeme_of, piece_of, pieces_of};
ghost use Rattle.asm_syntax.specs.Outcome.{LineGives};
ghost use Rattle.asm_lex.specs.Operators.{is_sign};
ghost use Rattle.dap_expr.specs.Words.{close_bracket};
ghost use Rattle.dap_expr.specs.Brackets as brackets;

use crate::words::{OPEN_BRACKET, WORD_BRACKET};
use asm_expr::expression::Expr;
use asm_lex::expression::expression;
use asm_syntax::fault::{FaultKind, LineFault};
use asm_syntax::token::{Placed, Token, Word};
use std::alloc::Global;

/// How much of memory is read.
#[derive(Clone, Copy)]
pub enum Width {
    Byte,
    /// Low byte first.
    Word,
}

/// A read of memory.
#[derive(Drop)]
pub struct Read {
    pub width: Width,
    pub address: Expr,
}

/// A bracket that isn't closed yet.
#[derive(Clone, Copy)]
struct Open {
    index: usize,
    column: usize,
    width: Width,
}

/// The reads so far, and the tokens with a name for each of them in its place.
#[derive(Drop)]
pub(crate) struct Flat<'a> {
    pub(crate) tokens: Vec<Placed<'a>>,
    pub(crate) reads: Vec<Read>,
}

fn width_of(token: Token<'_>) -> Option<Width>
    ensures { result ≡ brackets.width_of (lexeme_of token.entry) }
{
    match token {
        Token::Sign(OPEN_BRACKET) => Some(Width::Byte),
        Token::Sign(WORD_BRACKET) => Some(Width::Word),
        _ => None,
    }
}

fn open_at(index: usize, placed: &Placed<'_>) -> Option<Open>
    ensures { result ≡ brackets.open_at index (piece_of placed.now) }
{
    let column = placed.column;
    match width_of(placed.token) {
        Some(width) => Some(Open {
            index,
            column,
            width,
        }),
        None => None,
    }
}

/// The last opening bracket.
#[tactic(auto, unfolding(crate::specs::Brackets::last_open_from))]
fn last_open(tokens: &[Placed<'_>]) -> Option<Open>
    ensures value { result ≡ brackets.last_open (pieces_of tokens.now) }
    ensures within { IfSome result (λ bracket. bracket.index < length tokens.now) }
{
    let mut found = None;
    for (index, placed) in tokens.iter().enumerate() {
        if let Some(open) = open_at(index, placed) {
            found = Some(open);
        }
    }
    found
}

/// The name in the place of a read, which no text has.
pub(crate) fn place_name(number: usize) -> Option<&'static str>
    ensures { option_map (λ name. name.now) result ≡ brackets.place_name number }
{
    match number {
        0 => Some("\x00"),
        1 => Some("\x01"),
        2 => Some("\x02"),
        3 => Some("\x03"),
        4 => Some("\x04"),
        5 => Some("\x05"),
        6 => Some("\x06"),
        7 => Some("\x07"),
        8 => Some("\x08"),
        9 => Some("\x09"),
        10 => Some("\x0A"),
        11 => Some("\x0B"),
        12 => Some("\x0C"),
        13 => Some("\x0D"),
        14 => Some("\x0E"),
        15 => Some("\x0F"),
        _ => None,
    }
}

/// The token in the place of a read, whose bracket is at this column.
fn place(column: usize, number: usize) -> Result<Token<'static>, LineFault>
    ensures { LineGives lexeme_of result (brackets.place column number) }
{
    match place_name(number) {
        Some(name) => Ok(Token::Name(Word {
            letters: name.as_bytes(),
        })),
        None => Err(LineFault::At {
            column,
            kind: FaultKind::Nesting,
        }),
    }
}

/// The last open bracket, for a closing one at this column.
fn bracket_for(column: usize, tokens: &[Placed<'_>]) -> Result<Open, LineFault>
    ensures value { LineGives (λ bracket. bracket) result
        (brackets.bracket_for column (pieces_of tokens.now)) }
    ensures within { IfOk result (λ bracket. bracket.index < length tokens.now) }
{
    match last_open(tokens) {
        Some(open) => Ok(open),
        None => Err(LineFault::At {
            column,
            kind: FaultKind::Operands,
        }),
    }
}

/// Takes out the read that a closing bracket at this column ends.
#[tactic(auto, unfolding(crate::specs::Brackets::after_closing))]
fn close(alloc: Global, column: usize, flat: &mut Flat<'_>) -> Result<(), LineFault>
    ensures { LineGives (λ _. brackets.flat_of flat.new) result
        (brackets.after_closing column (brackets.flat_of flat.old)) }
{
    let Open {
        index,
        column,
        width,
    } = bracket_for(column, &flat.tokens)?;
    let token = place(column, flat.reads.len())?;
    let address = expression(alloc, column, flat.tokens.split_at(index + 1).1)?.expr;
    flat.reads.push(Read { width, address })?;
    flat.tokens.truncate(index);
    flat.tokens.push(Placed { column, token })?;
    Ok(())
}

fn is_closing(token: Token<'_>) -> bool
    ensures { result ≡ is_sign close_bracket (lexeme_of token.entry) }
{
    match token {
        Token::Sign(sign) => sign == b']',
        _ => false,
    }
}

/// Adds a token.
fn step<'a>(alloc: Global, flat: &mut Flat<'a>, placed: Placed<'a>) -> Result<(), LineFault>
    ensures { LineGives (λ _. brackets.flat_of flat.new) result
        (brackets.step (brackets.flat_of flat.old) (piece_of placed.entry)) }
{
    if is_closing(placed.token) {
        return close(alloc, placed.column, flat);
    }
    flat.tokens.push(placed)?;
    Ok(())
}

/// Takes the reads out of an expression, innermost first.
#[tactic(auto, unfolding(crate::specs::Brackets::flat_from))]
pub(crate) fn take_reads<'a>(alloc: Global, tokens: &[Placed<'a>]) -> Result<Flat<'a>, LineFault>
    ensures { LineGives brackets.flat_of result (brackets.taken_out (pieces_of tokens.now)) }
{
    let mut flat = Flat {
        tokens: Vec::new(alloc),
        reads: Vec::new(alloc),
    };
    for placed in tokens {
        step(alloc, &mut flat, *placed)?;
    }
    Ok(flat)
}
