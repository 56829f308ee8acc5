//! Numbers that begin with `0x`.
ghost use Rattle.std.specs.Prelude.{◌≡◌, ◌++◌, OnOk, IfOk};
ghost use Rattle.asm_lex.specs.Characters.{is_word_part};
ghost use Rattle.dap_expr.specs.Hexadecimal as hexadecimal;

use std::alloc::{AllocError, Global};

/// What a character of a text follows.
#[derive(Clone, Copy)]
enum Within {
    /// Nothing that a letter or a digit would continue.
    Nothing,
    Word,
    /// A `0` that begins a number.
    Zero,
    /// `0x`.
    Prefix,
    /// `0x` and digits.
    Digits,
    /// A string that isn't closed yet.
    Text,
}

fn is_word_part(byte: u8) -> bool
    ensures { result ≡ is_word_part byte }
{
    byte.is_ascii_alphanumeric() || byte == b'?' || byte == b'@'
}

/// Where the text is after a character that doesn't continue a number.
fn after(byte: u8) -> Within
    ensures { result ≡ hexadecimal.after byte }
{
    if byte == b'\'' {
        Within::Text
    } else if is_word_part(byte) {
        Within::Word
    } else {
        Within::Nothing
    }
}

fn next(within: Within, byte: u8) -> Within
    ensures { result ≡ hexadecimal.next within byte }
{
    match within {
        Within::Nothing => if byte == b'0' {
            Within::Zero
        } else {
            after(byte)
        },
        Within::Word => after(byte),
        Within::Zero => if byte.to_ascii_uppercase() == b'X' {
            Within::Prefix
        } else {
            after(byte)
        },
        Within::Prefix | Within::Digits => {
            if byte.is_ascii_alphanumeric() {
                Within::Digits
            } else {
                after(byte)
            }
        }
        Within::Text => if byte == b'\'' {
            Within::Nothing
        } else {
            Within::Text
        },
    }
}

/// The letter that ends what was before a character that doesn't continue it, if it has one.
fn ending(within: Within) -> Option<u8>
    ensures { result ≡ hexadecimal.ending within }
{
    match within {
        Within::Prefix => Some(b'X'),
        Within::Digits => Some(b'H'),
        _ => None,
    }
}

fn continues(next: Within) -> bool
    ensures { result ≡ hexadecimal.continues next }
{
    matches!(next, Within::Digits)
}

fn is_prefix(next: Within) -> bool
    ensures { result ≡ hexadecimal.is_prefix next }
{
    matches!(next, Within::Prefix)
}

fn end(found: &mut Vec<u8>, within: Within) -> Result<(), AllocError>
    ensures { OnOk result (found.new.items ≡ found.old.items ++ hexadecimal.end within) }
{
    if let Some(letter) = ending(within) {
        found.push(letter)?;
    }
    Ok(())
}

/// Adds a character, which is followed as `next` says.
fn text_between(
    found: &mut Vec<u8>,
    within: Within,
    next: Within,
    byte: u8,
) -> Result<(), AllocError>
    ensures { OnOk result (found.new.items ≡ found.old.items ++ hexadecimal.text_between within next byte) }
{
    if is_prefix(next) {
        return Ok(());
    }
    if !continues(next) {
        end(found, within)?;
    }
    found.push(byte)?;
    Ok(())
}

/// The text with each number that begins with `0x` as the assembler has it, with H behind it. Each character
/// but these stays where it is.
#[tactic(auto, unfolding(crate::specs::Hexadecimal::assembler_from))]
pub(crate) fn assembler_text(alloc: Global, text: &[u8]) -> Result<Vec<u8>, AllocError>
    ensures { IfOk result (λ found. found.items ≡ hexadecimal.assembler_text text.now) }
{
    let mut found = Vec::new(alloc);
    let mut within = Within::Nothing;
    for byte in text {
        let following = next(within, *byte);
        text_between(&mut found, within, following, *byte)?;
        within = following;
    }
    end(&mut found, within)?;
    Ok(found)
}
