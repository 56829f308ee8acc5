//! Words that can't stand where they do.
ghost use Rattle.std.specs.Prelude.{◌≡◌};
ghost use Rattle.asm_syntax.specs.Lexemes.{lexeme_of, pieces_of};
ghost use Rattle.asm_lex.specs.Words.{ends_operand, leads, keyword_misplaced, is_misplaced, misplaced_word};

use crate::operators::is_sign;
use asm_syntax::keyword::Keyword;
use asm_syntax::token::{Placed, Token};

// Whether an atom of an expression begins after this token.
fn leads(token: Token<'_>) -> bool
    ensures { result ≡ leads (lexeme_of token.entry) }
{
    match token {
        Token::Sign(b',' | b'(' | b'+' | b'-' | b'*' | b'/') => true,
        Token::Keyword(Keyword::Prefix(_) | Keyword::Infix(_)) => true,
        _ => false,
    }
}

fn ends_operand(rest: &[Placed<'_>]) -> bool
    ensures { result ≡ ends_operand (pieces_of rest.now) }
{
    match rest.split_first() {
        None => true,
        Some((next, _)) => is_sign(b',', next.token),
    }
}

// Whether a word can't stand where an atom begins.
fn keyword_misplaced(begins_operand: bool, keyword: Keyword, rest: &[Placed<'_>]) -> bool
    ensures { result ≡ keyword_misplaced begins_operand keyword (pieces_of rest.now) }
{
    match keyword {
        Keyword::Prefix(_) => false,
        Keyword::Register(_) => !(begins_operand && ends_operand(rest)),
        _ => true,
    }
}

fn is_misplaced(
    begins_operand: bool,
    begins_atom: bool,
    token: Token<'_>,
    rest: &[Placed<'_>],
) -> bool
    ensures { result ≡ is_misplaced begins_operand begins_atom (lexeme_of token.entry)
        (pieces_of rest.now) }
{
    match token {
        Token::Overlong => true,
        Token::Keyword(keyword) => begins_atom && keyword_misplaced(begins_operand, keyword, rest),
        _ => false,
    }
}

/// The column of the leftmost word that can't stand where it does: a word of more than 31
/// characters, or a keyword where an atom of an expression should begin. HIGH, LOW and NOT may stand
/// there, and so may a register, a pair, SP or PSW that is a whole operand.
#[tactic(auto, unfolding(crate::specs::Words::misplaced_from))]
pub fn misplaced_word(operands: &[Placed<'_>]) -> Option<usize>
    ensures { result ≡ misplaced_word (pieces_of operands.now) }
{
    let mut begins_operand = true;
    let mut begins_atom = true;
    for (i, piece) in operands.iter().enumerate() {
        let rest = operands.split_at(i + 1).1;
        if is_misplaced(begins_operand, begins_atom, piece.token, rest) {
            return Some(piece.column);
        }
        begins_operand = is_sign(b',', piece.token);
        begins_atom = leads(piece.token);
    }
    None
}
