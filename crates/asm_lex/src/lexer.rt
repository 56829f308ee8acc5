//! The tokens of a line (8080/8085 Assembly Language Programming Manual, chapter 2).
ghost use Rattle.std.specs.Prelude.{ℕ, slice_index, ◌≡◌, ◌<◌, ◌≤◌, length, drop, IfOk};
ghost use Rattle.std.specs.List.{take_while};
ghost use Rattle.std.specs.Char.{is_ascii_alphanumeric};
ghost use Rattle.asm_syntax.specs.Lexemes.{pieces_of};
ghost use Rattle.asm_syntax.specs.Outcome.{LineGives};
ghost use Rattle.asm_lex.specs.Characters.{is_word_part};
ghost use Rattle.asm_lex.specs.Texts.{closing_quote};
ghost use Rattle.asm_lex.specs.Tokens.{read_of, number_read, text_read, token_at, tokens_of};

use crate::class::{is_blank, is_printed, is_word_part};
use crate::number::number_of;
use crate::quote::{find_closing_quote, is_text};
use asm_syntax::fault::{FaultKind, LineFault};
use asm_syntax::token::{Placed, Token, Word};
use asm_syntax::word::word_token;
use std::alloc::Global;

// The number of letters and digits at the front.
fn span_len(bytes: &[u8]) -> usize
    ensures { result ≡ length (take_while is_ascii_alphanumeric bytes.now) }
{
    bytes
        .iter()
        .take_while(|b| b.is_ascii_alphanumeric())
        .count()
}

// The number of characters of a word at the front.
fn word_len(bytes: &[u8]) -> usize
    ensures ascii { (k : ℕ) → k < result → slice_index bytes.now k < 128 }
    ensures value { result ≡ length (take_while is_word_part bytes.now) }
{
    bytes.iter().take_while(|b| is_word_part(**b)).count()
}

// The number at the front, which begins with a digit.
fn number_at(bytes: &[u8]) -> Result<(Token<'_>, usize), FaultKind>
    requires { 0 < length (take_while is_ascii_alphanumeric bytes.now) }
    ensures value { read_of result ≡ number_read (take_while is_ascii_alphanumeric bytes.now) }
    ensures within { IfOk result (λ x. (0 < x.1) × (x.1 ≤ length bytes.now)) }
{
    let len = span_len(bytes);
    match number_of(&bytes[..len]) {
        Some(n) => Ok((Token::Number(n), len)),
        None => Err(FaultKind::Number),
    }
}

// The string whose opening quote is at the front.
fn text_at(bytes: &[u8]) -> Result<(Token<'_>, usize), FaultKind>
    requires { 0 < length bytes.now }
    ensures value { read_of result ≡ text_read (drop 1 bytes.now) (closing_quote (drop 1 bytes.now)) }
    ensures within { IfOk result (λ x. (0 < x.1) × (x.1 ≤ length bytes.now)) }
{
    let inner = bytes.split_at(1).1;
    match find_closing_quote(inner) {
        Some(len) => {
            let text = inner.split_at(len).0;
            if is_text(text) {
                Ok((Token::Text(text), len + 2))
            } else {
                Err(FaultKind::Text)
            }
        }
        None => Err(FaultKind::Text),
    }
}

// The token at the front, and its length.
#[tactic(auto, unfolding(crate::specs::Tokens::token_at))]
fn token_at(bytes: &[u8]) -> Result<(Token<'_>, usize), FaultKind>
    requires { 0 < length bytes.now }
    ensures value { read_of result ≡ token_at bytes.now }
    ensures within { IfOk result (λ x. (0 < x.1) × (x.1 ≤ length bytes.now)) }
{
    let first = bytes[0];
    if first.is_ascii_digit() {
        return number_at(bytes);
    }
    if is_word_part(first) {
        let len = word_len(bytes);
        let letters = bytes.split_at(len).0;
        return Ok((word_token(Word { letters }), len));
    }
    if first == b'\'' {
        return text_at(bytes);
    }
    if is_printed(first) {
        Ok((Token::Sign(first), 1))
    } else {
        Err(FaultKind::Character)
    }
}

/// The tokens of a line up to its end or its comment, with their columns from 1.
///
/// The fault is the leftmost of these, or `OutOfMemory`:
/// - `Character`: a character outside of 20h to 7Eh other than a tab, and not in a string;
/// - `Number`, at its first digit: a number above 65,535, or a digit that its base doesn't have;
/// - `Text`, at its opening quote: a string that isn't closed, that is empty or longer than 128, or
///   that has a character outside of 20h to 7Eh.
///
/// A comment may have any characters.
pub fn tokens<'a>(alloc: Global, line: &'a [u8]) -> Result<Vec<Placed<'a>>, LineFault>
    ensures { LineGives (λ v. pieces_of v.items) result (tokens_of line.now) }
{
    let mut found = Vec::new(alloc);
    let mut rest = line;
    let mut column = 1;
    while !rest.is_empty() {
        let first = rest[0];
        if is_blank(first) {
            rest = rest.split_at(1).1;
            column += 1;
        } else if first == b';' {
            return Ok(found);
        } else {
            match token_at(rest) {
                Ok((token, len)) => {
                    found.push(Placed { column, token })?;
                    rest = rest.split_at(len).1;
                    column += len;
                }
                Err(kind) => return Err(LineFault::At { column, kind }),
            }
        }
    }
    Ok(found)
}
