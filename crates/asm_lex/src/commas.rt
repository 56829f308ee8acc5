//! Operands, which commas separate, and operands that are one token.
ghost use Rattle.std.specs.Prelude.{◌≡◌, ◌<◌, length, option_map, IfSome};
ghost use Rattle.asm_syntax.specs.Lexemes.{pieces_of, characters_of};
ghost use Rattle.asm_lex.specs.Commas.{pieces_around, operands_in, operands_of, split_commas};
ghost use Rattle.asm_lex.specs.Commas.{next_operand, single, pair, register_of, text_of};

use crate::operators::is_sign;
use asm_syntax::keyword::{Keyword, RegisterWord};
use asm_syntax::token::{Placed, Token};

/// The tokens before the first comma, which are the first operand, and those after it, if there is a
/// comma. No tokens are one empty operand.
pub fn next_operand<'a>(tokens: &'a [Placed<'a>]) -> (&'a [Placed<'a>], Option<&'a [Placed<'a>]>)
    ensures value { pieces_around result ≡ next_operand (pieces_of tokens.now) }
    ensures operands { operands_of (pieces_of tokens.now) ≡ operands_in (pieces_around result) }
    ensures shorter { IfSome result.1 (λ rest. length rest.now < length tokens.now) }
{
    for (i, piece) in tokens.iter().enumerate() {
        if is_sign(b',', piece.token) {
            return (tokens.split_at(i).0, Some(tokens.split_at(i + 1).1));
        }
    }
    (tokens, None)
}

/// The operand, if the tokens are exactly one.
pub fn single<'a>(tokens: &'a [Placed<'a>]) -> Option<&'a [Placed<'a>]>
    ensures { option_map (λ operand. pieces_of operand.now) result
        ≡ single (split_commas (pieces_of tokens.now)) }
{
    if tokens.is_empty() {
        return None;
    }
    match next_operand(tokens) {
        (operand, None) => Some(operand),
        (_, Some(_)) => None,
    }
}

/// The two operands, if the tokens are exactly two.
pub fn pair<'a>(tokens: &'a [Placed<'a>]) -> Option<(&'a [Placed<'a>], &'a [Placed<'a>])>
    ensures { option_map (λ x. (pieces_of x.0.now, pieces_of x.1.now)) result
        ≡ pair (split_commas (pieces_of tokens.now)) }
{
    let (first, others) = next_operand(tokens);
    let rest = others?;
    match next_operand(rest) {
        (second, None) => Some((first, second)),
        (_, Some(_)) => None,
    }
}

/// The word of an operand that is the name of a register or a pair.
pub fn register(operand: &[Placed<'_>]) -> Option<RegisterWord>
    ensures { result ≡ register_of (pieces_of operand.now) }
{
    match operand {
        [piece] => match piece.token {
            Token::Keyword(Keyword::Register(word)) => Some(word),
            _ => None,
        },
        _ => None,
    }
}

/// What stands between the outer quotes of an operand that is one string.
pub fn text<'a>(operand: &[Placed<'a>]) -> Option<&'a [u8]>
    ensures { option_map (λ text. characters_of text.now) result ≡ text_of (pieces_of operand.now) }
{
    match operand {
        [piece] => match piece.token {
            Token::Text(text) => Some(text),
            _ => None,
        },
        _ => None,
    }
}
