//! Tokens, the pieces of a line (8080/8085 Assembly Language Programming Manual, chapter 2).

ghost use Rattle.std.specs.Prelude.{◌<◌, EachIndex, slice_index};

use crate::keyword::Keyword;

/// Letters, digits, `?` and `@`, the first not a digit, as they are in the line.
#[derive(Clone, Copy)]
pub struct Word<'a> {
    pub letters: &'a [u8],
    ghost ascii: { EachIndex letters.now (λ k. slice_index letters.now k < 128) },
}

/// A piece of a line, borrowed from it.
#[derive(Clone, Copy)]
pub enum Token<'a> {
    /// A word that can be a name: at most 31 characters, and not a keyword.
    Name(Word<'a>),
    /// A word that can't be a name.
    Keyword(Keyword),
    /// A word of more than 31 characters.
    Overlong,
    /// A number.
    Number(u16),
    /// What is between a string's outer quotes; a quote in it is still doubled.
    Text(&'a [u8]),
    /// Any other character of 21h to 7Eh.
    Sign(u8),
}

/// A token and the column, from 1, at which it begins.
#[derive(Clone, Copy)]
pub struct Placed<'a> {
    pub column: usize,
    pub token: Token<'a>,
}
