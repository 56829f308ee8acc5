//! The quotes of strings (8080/8085 Assembly Language Programming Manual, chapter 2).
ghost use Rattle.std.specs.Prelude.{◌≡◌, ◌<◌, length, IfSome};
ghost use Rattle.std.specs.List.{list_all};
ghost use Rattle.asm_syntax.specs.Lexemes.{characters_of};
ghost use Rattle.asm_lex.specs.Characters.{is_printed};
ghost use Rattle.asm_lex.specs.Texts.{closing_quote, is_text};

use crate::class::is_printed;

/// The index of the closing quote, in the bytes after the opening one.
pub fn find_closing_quote(bytes: &[u8]) -> Option<usize>
    ensures value { result ≡ closing_quote bytes.now }
    ensures within { IfSome result (λ n. n < length bytes.now) }
{
    let mut rest = bytes;
    let mut len = 0;
    while !rest.is_empty() {
        if rest[0] != b'\'' {
            rest = rest.split_at(1).1;
            len += 1;
        } else if rest.len() >= 2 && rest[1] == b'\'' {
            rest = rest.split_at(2).1;
            len += 2;
        } else {
            return Some(len);
        }
    }
    None
}

// The number of characters, where a doubled quote counts once.
fn character_count(text: &[u8]) -> usize
    ensures { result ≡ length (characters_of text.now) }
{
    let mut rest = text;
    let mut count = 0;
    while rest.len() >= 2 {
        if rest[0] == b'\'' {
            rest = rest.split_at(2).1;
            count += 1;
        } else {
            rest = rest.split_at(1).1;
            count += 1;
        }
    }
    count + rest.len()
}

fn all_printed(text: &[u8]) -> bool
    ensures { result ≡ list_all is_printed text.now }
{
    text.iter().all(|b| is_printed(*b))
}

/// Whether this may be between a string's quotes: from 1 to 128 characters of 20h to 7Eh.
pub fn is_text(text: &[u8]) -> bool
    ensures { result ≡ is_text text.now }
{
    let count = character_count(text);
    all_printed(text) && 0 < count && count <= 128
}
