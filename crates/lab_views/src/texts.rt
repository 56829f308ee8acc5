//! Values as texts.
ghost use Rattle.std.specs.Prelude.{◌≡◌, IfOk};
ghost use Rattle.std.specs.Fmt.{decimal};
ghost use Rattle.asm_syntax.specs.Numerals.{byte_text, word_text};
ghost use Rattle.lab_views.specs.Variables as variables;

use asm_syntax::numeral;
use base_text::text::Text;
use i80_exec::registers::Interrupts;
use std::alloc::{AllocError, Global};

/// A byte as the assembler writes it.
pub fn byte_text(alloc: Global, byte: u8) -> Result<Text, AllocError>
    ensures { IfOk result (λ text. text ≡ byte_text byte) }
{
    let mut text = String::new(alloc);
    numeral::push_byte(&mut text, byte)?;
    Ok(Text::from(text))
}

/// A word as the assembler writes it.
pub fn word_text(alloc: Global, word: u16) -> Result<Text, AllocError>
    ensures { IfOk result (λ text. text ≡ word_text word) }
{
    let mut text = String::new(alloc);
    numeral::push_word(&mut text, word)?;
    Ok(Text::from(text))
}

/// A number in decimal digits.
pub fn decimal(alloc: Global, number: usize) -> Result<Text, AllocError>
    ensures { IfOk result (λ text. text ≡ decimal number) }
{
    let mut text = String::new(alloc);
    write!(text, "{number}")?;
    Ok(Text::from(text))
}

/// `1` or `0`.
pub fn bit_text(bit: bool) -> &'static str
    ensures { result.now ≡ variables.bit_text bit }
{
    if bit { "1" } else { "0" }
}

/// `off`, `arming` or `on`.
pub fn interrupts_text(interrupts: Interrupts) -> &'static str
    ensures { result.now ≡ variables.interrupts_text interrupts }
{
    match interrupts {
        Interrupts::Off => "off",
        Interrupts::Arming => "arming",
        Interrupts::On => "on",
    }
}

/// The number of the latched request, or `none`.
pub fn latched_text(alloc: Global, latched: Option<u8>) -> Result<Text, AllocError>
    ensures { IfOk result (λ text. text ≡ variables.latched_text latched) }
{
    match latched {
        None => Text::copy_of(alloc, "none"),
        Some(n) => decimal(alloc, usize::from(n)),
    }
}
