//! The characters of strings.
ghost use Rattle.std.specs.Prelude.{◌≡◌, ◌+◌, ◌<◌, ◌∷◌, [], length, IfOk, MatchOption};
ghost use Rattle.asm_syntax.specs.Lexemes.{characters_of};
ghost use Rattle.asm_lex.specs.Operators.{number_of};

use base_text::sequence::Sequence;
use std::alloc::{AllocError, Global};

// The first character and what is after it, where a doubled quote is one character.
fn next_character(text: &[u8]) -> Option<(u8, &[u8])>
    ensures read { MatchOption result (text.now ≡ [])
        (λ x. characters_of text.now ≡ x.0 ∷ characters_of x.1.now) }
    ensures shorter { MatchOption result Unit (λ x. length x.1.now < length text.now) }
{
    match text {
        [] => None,
        [b'\'', _, rest @ ..] => Some((b'\'', rest)),
        [character, rest @ ..] => Some((*character, rest)),
    }
}

// One or two characters as a number, with the first in the high byte.
pub(crate) fn number(text: &[u8]) -> Option<u16>
    ensures { result ≡ number_of (characters_of text.now) }
{
    let (high, rest) = next_character(text)?;
    let Some((low, rest)) = next_character(rest) else {
        return Some(u16::from(high));
    };
    if rest.is_empty() {
        Some(u16::from(high) * 256 + u16::from(low))
    } else {
        None
    }
}

/// The characters of a string, where `text` is what is between its outer quotes: a doubled
/// quote in it is one character (8080/8085 Assembly Language Programming Manual, chapter 2).
pub fn string_bytes(alloc: Global, text: &[u8]) -> Result<Sequence<u8>, AllocError>
    ensures { IfOk result (λ bytes. bytes ≡ characters_of text.now) }
{
    let mut bytes = Vec::new(alloc);
    let mut rest = text;
    while let Some((character, after)) = next_character(rest) {
        bytes.push(character)?;
        rest = after;
    }
    Ok(Sequence::from(bytes))
}
