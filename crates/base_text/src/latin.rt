//! Conversions between a text and its bytes in ISO 8859-1.
ghost use Rattle.std.specs.Prelude.{◌≡◌, IfOk, string_bytes};
ghost use Rattle.base_text.specs.Latin.{latin_byte, latin_bytes, latin_text};

use crate::sequence::Bytes;
use std::alloc::{AllocError, Global};

/// The byte of a character: its number, or `?` above U+00FF.
fn byte_of(character: char) -> u8
    ensures { result ≡ latin_byte character }
{
    u8::try_from(u32::from(character)).unwrap_or(b'?')
}

/// Converts each character to the byte with its number, or to `?` above U+00FF.
pub fn to_bytes(alloc: Global, text: &str) -> Result<Bytes, AllocError>
    ensures { IfOk result (λ bytes. bytes ≡ latin_bytes text.now) }
{
    let mut bytes = Vec::new(alloc);
    for character in text.chars() {
        bytes.push(byte_of(character))?;
    }
    Ok(Bytes::from(bytes))
}

/// Converts each byte to the character with its number.
#[tactic(auto, using(crate::proofs::LatinLemmas::one_more), unfolding(crate::specs::Latin::latin_text))]
pub fn to_text(alloc: Global, bytes: &[u8]) -> Result<String, AllocError>
    ensures { IfOk result (λ text. string_bytes text ≡ latin_text bytes.now) }
{
    let mut text = String::new(alloc);
    for byte in bytes {
        text.push(char::from(*byte))?;
    }
    Ok(text)
}
