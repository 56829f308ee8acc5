//! The listing of bytes.
ghost use Rattle.std.specs.Prelude.{◌≡◌, ◌≤◌, ◌+◌, ◌++◌, length, map, IfOk, OnOk, codes, string_bytes};
ghost use Rattle.i80_dis.specs.declared.line.Shown.TheVariants.{Datum};
ghost use Rattle.i80_dis.specs.Shown.{lines_of};
ghost use Rattle.asm_syntax.specs.Numerals.{word_text};
ghost use Rattle.i80_dis.specs.Text.{text_of, text_line, origin_line, text_of_lines};
ghost use Rattle.i80_dis.specs.Text.{listing_of};

use crate::line::{Shown, next_shown, push_text};
use asm_syntax::numeral::push_word;
use std::alloc::{AllocError, Global};

/// The most bytes of a line with its end: the longest is `LXI SP,0FFFFH`.
const LONGEST_LINE: usize = 14;

// Appends ORG with its operand.
fn push_directive(text: &mut String, address: u16) -> Result<(), AllocError>
    ensures { OnOk result (string_bytes text.new
        ≡ string_bytes text.old ++ (codes "ORG " ++ word_text address)) }
{
    text.push_str("ORG ")?;
    push_word(text, address)
}

// Appends the line with ORG.
fn push_origin(text: &mut String, address: u16) -> Result<(), AllocError>
    ensures { OnOk result (string_bytes text.new ≡ string_bytes text.old ++ origin_line address) }
{
    text.reserve(LONGEST_LINE)?;
    push_directive(text, address)?;
    text.push_str("\n")?;
    Ok(())
}

// Appends a line.
fn push_line(text: &mut String, shown: Shown) -> Result<(), AllocError>
    ensures { OnOk result (string_bytes text.new
        ≡ string_bytes text.old ++ text_line (text_of shown)) }
{
    text.reserve(LONGEST_LINE)?;
    push_text(text, shown)?;
    text.push_str("\n")?;
    Ok(())
}

// Appends each byte as a line of its own.
fn push_data(text: &mut String, bytes: &[u8]) -> Result<(), AllocError>
    ensures { OnOk result (string_bytes text.new
        ≡ string_bytes text.old ++ text_of_lines (map Datum bytes.now)) }
{
    for byte in bytes {
        push_line(text, Shown::Datum(*byte))?;
    }
    Ok(())
}

// Appends the lines of bytes.
fn push_lines(text: &mut String, bytes: &[u8]) -> Result<(), AllocError>
    ensures { OnOk result (string_bytes text.new
        ≡ string_bytes text.old ++ text_of_lines (lines_of bytes.now)) }
{
    let mut rest = bytes;
    while !rest.is_empty() {
        match next_shown(rest) {
            Some((shown, length)) => {
                push_line(text, shown)?;
                rest = rest.split_at(length.into()).1;
            }
            None => return push_data(text, rest),
        }
    }
    Ok(())
}

/// The listing of bytes, the first of which is at this address: a line with `ORG`, and after it a line
/// for each instruction. The listing of no bytes is empty.
///
/// An undefined opcode is `DB` with that byte. If an instruction is cut off by the end of the bytes,
/// so is each byte that is left. The text is reallocated at most once a line.
#[tactic(auto, using(crate::proofs::Lines::listing_none, crate::proofs::Lines::listing_some))]
pub fn listing(alloc: Global, address: u16, bytes: &[u8]) -> Result<String, AllocError>
    requires { address + length bytes.now ≤ 65536 }
    ensures { IfOk result (λ text. string_bytes text ≡ listing_of address bytes.now) }
{
    let mut text = String::new(alloc);
    if bytes.is_empty() {
        return Ok(text);
    }
    push_origin(&mut text, address)?;
    push_lines(&mut text, bytes)?;
    Ok(text)
}
