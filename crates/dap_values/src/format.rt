//! Numbers in values, as an editor asks for them.
ghost use Rattle.std.specs.Prelude.{◌≡◌, IfOk};
ghost use Rattle.dap_values.specs.Format as shown;

use base_text::text::Text;
use dap_messages::message::ValueFormat;
use lab_views::texts::{byte_text, decimal, word_text};
use std::alloc::{AllocError, Global};

/// A byte in a format.
pub fn byte_shown(alloc: Global, format: ValueFormat, byte: u8) -> Result<Text, AllocError>
    ensures { IfOk result (λ text. text ≡ shown.byte_shown format byte) }
{
    match format {
        ValueFormat::Hexadecimal => byte_text(alloc, byte),
        ValueFormat::Decimal => decimal(alloc, usize::from(byte)),
    }
}

/// A word in a format.
pub fn word_shown(alloc: Global, format: ValueFormat, word: u16) -> Result<Text, AllocError>
    ensures { IfOk result (λ text. text ≡ shown.word_shown format word) }
{
    match format {
        ValueFormat::Hexadecimal => word_text(alloc, word),
        ValueFormat::Decimal => decimal(alloc, usize::from(word)),
    }
}
