//! What places hold, as texts, and as numbers that the assembler reads (8080/8085 Assembly Language
//! Programming Manual, chapter 2).
ghost use Rattle.std.specs.Prelude.{◌≡◌, ◌≤◌, IfOk};
ghost use Rattle.asm_syntax.specs.Numerals.{byte_text, word_text};
ghost use Rattle.lab_views.specs.Values.{largest_at, number_spelled, value_spelled, text_at};

use crate::poke_fault::PokeFault;
use asm_lex::number::number_of;
use asm_syntax::numeral::{push_byte, push_word};
use base_text::text::Text;
use lab_shown::place::Place;
use std::alloc::{AllocError, Global};

/// The number that the assembler reads from a text. It must begin with a digit.
fn read_number(text: &[u8]) -> Option<u16>
    ensures { result ≡ number_spelled text.now }
{
    if text.is_empty() || !text[0].is_ascii_digit() {
        return None;
    }
    number_of(text)
}

fn largest(place: Place) -> u16
    ensures { result ≡ largest_at place }
{
    match place {
        Place::Sp | Place::Pc => 65535,
        _ => 255,
    }
}

/// The value that a text gives a place: a number as the assembler reads them, which begins with a digit from
/// 0 to 9; at most 65,535 for SP and PC, and 255 for the others. Fails with `BadValue` for any other text.
pub fn value_of(place: Place, text: &str) -> Result<u16, PokeFault>
    ensures value { result ≡ value_spelled place text.now }
    ensures fits { IfOk result (λ value. value ≤ largest_at place) }
{
    match read_number(text.as_bytes()) {
        Some(value) if value <= largest(place) => Ok(value),
        _ => Err(PokeFault::BadValue),
    }
}

/// The text by which a view shows a value at a place: `0hhhhH` for SP and PC, and `0hhH` for the others.
pub fn text_of(alloc: Global, place: Place, value: u16) -> Result<Text, AllocError>
    requires { value ≤ largest_at place }
    ensures { IfOk result (λ text. text ≡ text_at place value) }
{
    let mut text = String::new(alloc);
    match place {
        Place::Sp | Place::Pc => push_word(&mut text, value)?,
        _ => push_byte(&mut text, value as u8)?,
    }
    Ok(Text::from(text))
}
