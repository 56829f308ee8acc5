//! Numbers of a listing (8080/8085 Assembly Language Programming Manual, chapter 3): upper-case
//! hexadecimal that begins with the digit 0 and ends with H.
ghost use Rattle.std.specs.Prelude.{◌≡◌, ◌++◌, OnOk, string_bytes};
ghost use Rattle.asm_syntax.specs.Numerals.{byte_text, word_text};

use base_text::hexadecimal;
use std::alloc::AllocError;

/// Appends a byte as `0hhH`.
pub fn push_byte(text: &mut String, byte: u8) -> Result<(), AllocError>
    ensures { OnOk result (string_bytes text.new ≡ string_bytes text.old ++ byte_text byte) }
{
    text.push_str("0")?;
    hexadecimal::push_byte(text, byte)?;
    text.push_str("H")?;
    Ok(())
}

/// Appends a word as `0hhhhH`.
pub fn push_word(text: &mut String, word: u16) -> Result<(), AllocError>
    ensures { OnOk result (string_bytes text.new ≡ string_bytes text.old ++ word_text word) }
{
    text.push_str("0")?;
    hexadecimal::push_word(text, word)?;
    text.push_str("H")?;
    Ok(())
}
