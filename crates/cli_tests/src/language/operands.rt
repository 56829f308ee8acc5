//! Operands and words whose answers were worked out by hand. What expressions are worth is tested by the
//! clients.
use crate::language::rows::{Asked, compare};
use crate::language::tokens::{keyword_name, put_bytes};
use asm_expr::expression::{Binary, Expr, Unary};
use asm_lex::commas::{next_operand, pair, register, single, text};
use asm_lex::expression::expression;
use asm_lex::lexer;
use asm_lex::shape::is_expression;
use asm_lex::strings::string_bytes;
use asm_lex::words::misplaced_word;
use asm_syntax::keyword::{Keyword, Mnemonic, RegisterWord};
use asm_syntax::token::{Placed, Token, Word};
use i80_base::instruction::Instr;
use std::alloc::{AllocError, Global};

// One character for each token: a digit for a number, a capital letter for an operator word, `x` for a
// name, `a` for a register, `n` for NOP, `w` for a word that is too long, and else a sign.
fn token(character: u8) -> Token<'static> {
    match character {
        b'0'..=b'9' => Token::Number(u16::from(character - b'0')),
        b'H' => Token::Keyword(Keyword::Prefix(Unary::High)),
        b'L' => Token::Keyword(Keyword::Prefix(Unary::Low)),
        b'N' => Token::Keyword(Keyword::Prefix(Unary::Not)),
        b'M' => Token::Keyword(Keyword::Infix(Binary::Modulo)),
        b'A' => Token::Keyword(Keyword::Infix(Binary::And)),
        b'x' => Token::Name(Word { letters: b"x" }),
        b'a' => Token::Keyword(Keyword::Register(RegisterWord::A)),
        b'n' => Token::Keyword(Keyword::Mnemonic(Mnemonic::Alone(Instr::Nop))),
        b'w' => Token::Overlong,
        _ => Token::Sign(character),
    }
}

// The tokens that characters stand for, at columns from 1.
fn tokens(alloc: Global, text: &[u8]) -> Result<Vec<Placed<'static>>, AllocError> {
    let mut tokens = Vec::new(alloc);
    for (i, character) in text.iter().enumerate() {
        tokens.push(Placed {
            column: i + 1,
            token: token(*character),
        })?;
    }
    Ok(tokens)
}

fn string(inside: &[u8]) -> [Placed<'_>; 1] {
    [Placed {
        column: 1,
        token: Token::Text(inside),
    }]
}

/// Whether a string is an expression, given what stands between its quotes.
pub(crate) fn put_shape(inside: &[u8], told: &mut String) -> Result<(), AllocError> {
    told.push_str(if is_expression(&string(inside)) {
        "an expression"
    } else {
        "none"
    })
}

/// The characters that a string says, given what stands between its quotes.
pub(crate) fn put_string(
    alloc: Global,
    inside: &[u8],
    told: &mut String,
) -> Result<(), AllocError> {
    match text(&string(inside)) {
        Some(inside) => put_bytes(string_bytes(alloc, inside)?.as_slice(), told),
        None => told.push_str("no text"),
    }
}

// What no line has between quotes.
const SHAPES: &str = "\
'''''A | none
 | none
";

// What the others say, given what stands between their quotes.
const STRINGS: &str = "\
it''s | it's
it''s '' | it's '
 |
";

#[test]
fn strings(rt: HostRuntime) {
    compare(&rt, Asked::Shape, SHAPES);
    compare(&rt, Asked::Characters, STRINGS);
}

fn put_register(word: Option<RegisterWord>, told: &mut String) -> Result<(), AllocError> {
    told.push_str(match word {
        Some(word) => keyword_name(Keyword::Register(word)),
        None => "-",
    })?;
    told.push(' ')
}

fn put_length(operand: Option<&[Placed<'_>]>, told: &mut String) -> Result<(), AllocError> {
    match operand {
        Some(tokens) => write!(told, "{} ", tokens.len()),
        None => told.push_str("- "),
    }
}

fn put_pair(tokens: &[Placed<'_>], told: &mut String) -> Result<(), AllocError> {
    match pair(tokens) {
        Some((left, right)) => write!(told, "{} {}", left.len(), right.len()),
        None => told.push('-'),
    }
}

fn put_parts(tokens: &[Placed<'_>], told: &mut String) -> Result<(), AllocError> {
    let (first, rest) = next_operand(tokens);
    put_register(register(tokens), told)?;
    put_register(register(first), told)?;
    put_length(rest, told)?;
    put_length(single(tokens), told)?;
    put_pair(tokens, told)
}

/// How tokens are split at commas.
pub(crate) fn put_split(alloc: Global, text: &[u8], told: &mut String) -> Result<(), AllocError> {
    put_parts(&tokens(alloc, text)?, told)
}

// Tokens; the word that they all are; of the first operand its word; how many tokens follow its comma;
// how many the only operand has; how many each of two operands has.
const SPLITS: &str = "\
a,5+1 | - Register(A) 3 - 1 3
 | - - - - -
5+1 | - - - 3 -
, | - - 0 - 0 0
,, | - - 1 - -
5 | - - - 1 -
";

#[test]
fn operands_between_commas(rt: HostRuntime) {
    compare(&rt, Asked::Split, SPLITS);
}

/// The column of the leftmost word that can't stand where it does.
pub(crate) fn put_misplaced(
    alloc: Global,
    text: &[u8],
    told: &mut String,
) -> Result<(), AllocError> {
    let tokens = tokens(alloc, text)?;
    let column = misplaced_word(&tokens);
    drop(tokens);
    write!(told, "{column:?}")
}

const MISPLACED: &str = "\
a,n | Some(3)
1+A | Some(3)
(a) | Some(2)
1w | Some(2)
N,M | Some(3)
a+a,5 | Some(1)
a,1,a+n,n | Some(5)
M | Some(1)
 | None
1M2 | None
1n | None
N | None
a,a | None
NHL | None
1a | None
)M | None
x | None
";

#[test]
fn misplaced_words(rt: HostRuntime) {
    compare(&rt, Asked::Misplaced, MISPLACED);
}

fn put_names_in(alloc: Global, tree: &Expr, told: &mut String) -> Result<(), AllocError> {
    let names = tree.names(alloc)?;
    let are_two = names.len() == 2 && names[0].as_str() == "I" && names[1].as_str() == "X";
    drop(names);
    told.push_str(if are_two { "I X" } else { "others" })
}

fn put_names_of(alloc: Global, tokens: &[Placed<'_>], told: &mut String) -> Result<(), AllocError> {
    match expression(alloc, 9, tokens) {
        Ok(operand) => put_names_in(alloc, &operand.expr, told),
        Err(fault) => write!(told, "{fault}"),
    }
}

/// The names in an expression, which must be I and X.
pub(crate) fn put_names(alloc: Global, line: &[u8], told: &mut String) -> Result<(), AllocError> {
    match lexer::tokens(alloc, line) {
        Ok(tokens) => put_names_of(alloc, &tokens, told),
        Err(fault) => write!(told, "{fault}"),
    }
}

#[test]
fn names_from_the_left(rt: HostRuntime) {
    compare(&rt, Asked::Names, "I+X | I X");
}
