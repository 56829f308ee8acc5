//! Words as tokens.
ghost use Rattle.std.specs.Prelude.{◌≡◌, map};
ghost use Rattle.std.specs.Char.{to_ascii_uppercase};
ghost use Rattle.asm_syntax.specs.Lexemes.{lexeme_of, word_lexeme};

use crate::keyword::keyword_of;
use crate::token::{Token, Word};

/// The token of a word, whatever its case.
pub fn word_token(word: Word<'_>) -> Token<'_>
    ensures { lexeme_of result ≡ word_lexeme (map to_ascii_uppercase word.entry.letters.now) }
{
    if word.letters.len() > 31 {
        return Token::Overlong;
    }
    match keyword_of(word.letters) {
        Some(keyword) => Token::Keyword(keyword),
        None => Token::Name(word),
    }
}
