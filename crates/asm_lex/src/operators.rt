//! What tokens are in an expression.
ghost use Rattle.std.specs.Prelude.{◌≡◌, ◌≤◌, option_map, is_some, IfOk};
ghost use Rattle.asm_expr.specs.Tree.{atom_of};
ghost use Rattle.asm_syntax.specs.Lexemes.{lexeme_of};
ghost use Rattle.asm_lex.specs.Operators.{prefix_strength, infix_strength, is_sign, prefix_of, infix_of};
ghost use Rattle.asm_lex.specs.Operators.{atom_in, plain};

use crate::strings::number;
use asm_expr::expression::{Atom, Binary, Unary};
use asm_expr::name::Name;
use asm_syntax::keyword::Keyword;
use asm_syntax::token::Token;
use std::alloc::{AllocError, Global};

pub(crate) fn prefix_strength(operator: Unary) -> u8
    ensures value { result ≡ prefix_strength operator }
    ensures small { result ≤ 7 }
{
    match operator {
        Unary::High | Unary::Low => 7,
        Unary::Plus | Unary::Minus => 5,
        Unary::Not => 3,
    }
}

pub(crate) fn infix_strength(operator: Binary) -> u8
    ensures value { result ≡ infix_strength operator }
    ensures small { result ≤ 7 }
{
    match operator {
        Binary::Multiply
        | Binary::Divide
        | Binary::Modulo
        | Binary::ShiftLeft
        | Binary::ShiftRight => 6,
        Binary::Add | Binary::Subtract => 5,
        Binary::Equal
        | Binary::NotEqual
        | Binary::Less
        | Binary::LessOrEqual
        | Binary::Greater
        | Binary::GreaterOrEqual => 4,
        Binary::And => 2,
        Binary::Or | Binary::Xor => 1,
    }
}

pub(crate) fn is_sign(character: u8, token: Token<'_>) -> bool
    ensures { result ≡ is_sign character (lexeme_of token.entry) }
{
    match token {
        Token::Sign(sign) => sign == character,
        _ => false,
    }
}

// The token that an expression takes for this one: a number for a string of one or two characters.
pub(crate) fn plain(token: Token<'_>) -> Token<'_>
    ensures { lexeme_of result ≡ plain (lexeme_of token.entry) }
{
    let Token::Text(text) = token else {
        return token;
    };
    match number(text) {
        Some(n) => Token::Number(n),
        None => token,
    }
}

pub(crate) fn prefix_of(token: Token<'_>) -> Option<Unary>
    ensures { result ≡ prefix_of (lexeme_of token.entry) }
{
    match token {
        Token::Sign(b'+') => Some(Unary::Plus),
        Token::Sign(b'-') => Some(Unary::Minus),
        Token::Keyword(Keyword::Prefix(operator)) => Some(operator),
        _ => None,
    }
}

pub(crate) fn infix_of(token: Token<'_>) -> Option<Binary>
    ensures { result ≡ infix_of (lexeme_of token.entry) }
{
    match token {
        Token::Sign(b'*') => Some(Binary::Multiply),
        Token::Sign(b'/') => Some(Binary::Divide),
        Token::Sign(b'+') => Some(Binary::Add),
        Token::Sign(b'-') => Some(Binary::Subtract),
        Token::Keyword(Keyword::Infix(operator)) => Some(operator),
        _ => None,
    }
}

pub(crate) fn is_atom(token: Token<'_>) -> bool
    ensures { result ≡ is_some (atom_in (lexeme_of token.entry)) }
{
    match token {
        Token::Number(_) | Token::Name(_) => true,
        Token::Sign(sign) => sign == b'$',
        _ => false,
    }
}

pub(crate) fn atom(alloc: Global, token: Token<'_>) -> Result<Option<Atom>, AllocError>
    ensures { IfOk result (λ a. option_map atom_of a ≡ atom_in (lexeme_of token.entry)) }
{
    match token {
        Token::Number(n) => Ok(Some(Atom::Number(n))),
        Token::Name(word) => Ok(Some(Atom::Named(Name::fold_case(alloc, word.letters)?))),
        Token::Sign(b'$') => Ok(Some(Atom::Here)),
        _ => Ok(None),
    }
}
