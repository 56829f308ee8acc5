//! What the assembler's tokens are in an expression over a board.
ghost use Rattle.std.specs.Prelude.{◌≡◌, ◌∷◌, ◌<◌, ◌≤◌, length, drop, option_map, IfOk};
ghost use Rattle.asm_syntax.specs.Lexemes.{lexeme_of, piece_of, pieces_of};
ghost use Rattle.asm_lex.specs.Operators.{is_sign};
ghost use Rattle.dap_expr.specs.Words as words;
ghost use Rattle.dap_expr.specs.Words.{open_bracket};

use crate::part::{Part, own_name, part_in_any_case};
use asm_expr::expression::Binary;
use asm_syntax::keyword::Keyword;
use asm_syntax::token::{Placed, Token, Word};
use std::alloc::{AllocError, Global};

/// The sign before the address of a byte.
pub(crate) const OPEN_BRACKET: u8 = b'[';

/// `word` and `[` as one sign, which no text has.
pub(crate) const WORD_BRACKET: u8 = 0;

/// `&&` as one sign, which no text has.
pub(crate) const AND: u8 = 1;

/// `||` as one sign, which no text has.
pub(crate) const OR: u8 = 2;

/// The comparison that two signs side by side are.
fn comparison(first: u8, second: u8) -> Option<Binary>
    ensures { result ≡ words.comparison first second }
{
    if second != b'=' {
        return None;
    }
    match first {
        b'=' => Some(Binary::Equal),
        b'!' => Some(Binary::NotEqual),
        b'<' => Some(Binary::LessOrEqual),
        b'>' => Some(Binary::GreaterOrEqual),
        _ => None,
    }
}

/// The name of a part as a token.
fn part_token(part: Part) -> Token<'static>
    ensures { lexeme_of result ≡ words.part_lexeme part }
{
    Token::Name(Word {
        letters: own_name(part).as_bytes(),
    })
}

/// The part that a token names after `$`.
fn part_after_dollar(token: Token<'_>) -> Option<Part>
    ensures { result ≡ words.part_after_dollar (lexeme_of token.entry) }
{
    match token {
        Token::Keyword(Keyword::Register(word)) => Some(Part::Register(word)),
        Token::Name(word) => part_in_any_case(word.letters),
        _ => None,
    }
}

/// The token that two signs are together.
fn signs_together(first: u8, second: u8) -> Option<Token<'static>>
    ensures { option_map lexeme_of result ≡ words.two_signs first second }
{
    if first == b'&' && second == b'&' {
        return Some(Token::Sign(AND));
    }
    if first == b'|' && second == b'|' {
        return Some(Token::Sign(OR));
    }
    match comparison(first, second) {
        Some(operator) => Some(Token::Keyword(Keyword::Infix(operator))),
        None => None,
    }
}

/// The token that two of the assembler's are together.
fn together(first: Token<'_>, second: Token<'_>) -> Option<Token<'static>>
    ensures { option_map lexeme_of result ≡ words.together (lexeme_of first.entry) (lexeme_of second.entry) }
{
    match (first, second) {
        (Token::Sign(b'$'), _) => match part_after_dollar(second) {
            Some(part) => Some(part_token(part)),
            None => None,
        },
        (Token::Sign(first), Token::Sign(second)) => signs_together(first, second),
        _ => None,
    }
}

/// The token that one of the assembler's is by itself, if it is another one.
fn own_lexeme(token: Token<'_>) -> Option<Token<'static>>
    ensures { option_map lexeme_of result ≡ words.own_lexeme (lexeme_of token.entry) }
{
    match token {
        Token::Keyword(Keyword::Register(word)) => Some(part_token(Part::Register(word))),
        Token::Sign(b'<') => Some(Token::Keyword(Keyword::Infix(Binary::Less))),
        Token::Sign(b'>') => Some(Token::Keyword(Keyword::Infix(Binary::Greater))),
        _ => None,
    }
}

/// The token that one of the assembler's is by itself.
fn alone(token: Token<'_>) -> Token<'_>
    ensures { lexeme_of result ≡ words.alone (lexeme_of token.entry) }
{
    if let Some(own_lexeme) = own_lexeme(token) {
        return own_lexeme;
    }
    token
}

fn is_word_name(token: Token<'_>) -> bool
    ensures { result ≡ words.is_word_name (lexeme_of token.entry) }
{
    match token {
        Token::Name(Word { letters }) => match letters {
            [w, o, r, d] => {
                w.to_ascii_uppercase() == b'W'
                    && o.to_ascii_uppercase() == b'O'
                    && r.to_ascii_uppercase() == b'R'
                    && d.to_ascii_uppercase() == b'D'
            }
            _ => false,
        },
        _ => false,
    }
}

fn is_bracket(token: Token<'_>) -> bool
    ensures { result ≡ is_sign open_bracket (lexeme_of token.entry) }
{
    match token {
        Token::Sign(sign) => sign == OPEN_BRACKET,
        _ => false,
    }
}

/// The token of two: `word[`, or two that stand side by side.
fn pair_lexeme(first: &Placed<'_>, second: &Placed<'_>) -> Option<Token<'static>>
    ensures { option_map lexeme_of result ≡ words.pair_lexeme (piece_of first.now) (piece_of second.now) }
{
    if is_word_name(first.token) && is_bracket(second.token) {
        return Some(Token::Sign(WORD_BRACKET));
    }
    if second.column.saturating_sub(first.column) != 1 {
        return None;
    }
    together(first.token, second.token)
}

/// The first token in its new form, and how many tokens it is.
#[tactic(auto, unfolding(crate::specs::Words::expression_pieces))]
fn next_word<'a>(tokens: &[Placed<'a>]) -> (Placed<'a>, usize)
    requires { 0 < length tokens.now }
    ensures value { words.expression_pieces (pieces_of tokens.now)
        ≡ piece_of result.0 ∷ words.expression_pieces (pieces_of (drop result.1 tokens.now)) }
    ensures some { 0 < result.1 }
    ensures within { result.1 ≤ length tokens.now }
{
    let first = tokens[0];
    let column = first.column;
    if tokens.len() >= 2 {
        if let Some(token) = pair_lexeme(&first, &tokens[1]) {
            return (Placed { column, token }, 2);
        }
    }
    let token = alone(first.token);
    (Placed { column, token }, 1)
}

/// The tokens with the machine's names and the comparisons by signs in the assembler's form: a part of the
/// machine as a name that no symbol has, a comparison as its word.
pub(crate) fn expression_pieces<'a>(
    alloc: Global,
    tokens: &[Placed<'a>],
) -> Result<Vec<Placed<'a>>, AllocError>
    ensures { IfOk result (λ found. pieces_of found.items ≡ words.expression_pieces (pieces_of tokens.now)) }
{
    let mut found = Vec::new(alloc);
    let mut index = 0;
    while index < tokens.len() {
        let (word, len) = next_word(tokens.split_at(index).1);
        found.push(word)?;
        index += len;
    }
    Ok(found)
}
