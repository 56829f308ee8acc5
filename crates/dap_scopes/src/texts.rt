//! Addresses, and expressions for values.
ghost use Rattle.std.specs.Prelude.{◌≡◌, ◌++◌, IfOk, codes};
ghost use Rattle.base_text.specs.Hexadecimal.{upper_word};
ghost use Rattle.dap_scopes.specs.Rows.{expression_at};

use asm_syntax::numeral;
use base_text::hexadecimal;
use base_text::text::Text;
use std::alloc::{AllocError, Global};

/// An address as four digits.
pub(crate) fn address_text(alloc: Global, address: u16) -> Result<Text, AllocError>
    ensures { IfOk result (λ text. text ≡ upper_word address) }
{
    let mut text = String::new(alloc);
    hexadecimal::push_word(&mut text, address)?;
    Ok(Text::from(text))
}

/// An expression whose value is the part with this name.
pub(crate) fn part_expression(alloc: Global, name: &str) -> Result<Text, AllocError>
    ensures { IfOk result (λ text. text ≡ codes "$" ++ name.now) }
{
    let mut text = String::from_str(alloc, "$")?;
    text.push_str(name)?;
    Ok(Text::from(text))
}

/// An expression whose value is what is at an address, which begins so.
pub(crate) fn expression_at(alloc: Global, front: &str, address: u16) -> Result<Text, AllocError>
    ensures { IfOk result (λ text. text ≡ expression_at front.now address) }
{
    let mut text = String::from_str(alloc, front)?;
    numeral::push_word(&mut text, address)?;
    text.push_str("]")?;
    Ok(Text::from(text))
}
