//! One line of a listing.
ghost use Rattle.std.specs.Prelude.{◌≡◌, ◌<◌, ◌≤◌, ◌++◌, ℕ, Some, length, IfOk, OnOk, string_bytes};
ghost use Rattle.i80_dis.specs.declared.line.Shown.{Shown};
ghost use Rattle.i80_dis.specs.Shown.{first_shown, next_shown};
ghost use Rattle.i80_dis.specs.Text.{text_of, first_text};

use crate::mnemonic::push_mnemonic;
use crate::operand::{operands_of, push_operands};
use asm_syntax::numeral::push_byte;
use i80_base::instruction::{DecodeFault, Instr};
use i80_rows::decoding::decode;
use std::alloc::{AllocError, Global};

/// What a line shows.
#[derive(Clone, Copy)]
pub enum Shown {
    Instruction(Instr),
    /// A single byte, after DB.
    Datum(u8),
}

/// A line of a listing.
#[derive(Drop)]
pub struct Line {
    /// The address of its first byte.
    pub address: u16,
    /// The number of bytes that it shows, from 1 to 3.
    pub length: u8,
    /// An instruction, as in `MVI A,06CH`, or a byte, as in `DB 008H`, without a line end.
    pub text: String,
}

// What the first line shows, and how many bytes; `None` if an instruction is cut off there.
pub(crate) fn next_shown(bytes: &[u8]) -> Option<(Shown, u8)>
    requires { 0 < length bytes.now }
    ensures value { result ≡ next_shown bytes.now }
    ensures within { (s : Shown) (n : ℕ) → result ≡ Some (s, n)
        → (0 < n) × (n ≤ length bytes.now) }
{
    match decode(bytes) {
        Ok((instr, length)) => Some((Shown::Instruction(instr), length)),
        Err(DecodeFault::Undefined) => Some((Shown::Datum(bytes[0]), 1)),
        Err(DecodeFault::Short { .. }) => None,
    }
}

/// Appends the text of a line, without a line end.
pub(crate) fn push_text(text: &mut String, shown: Shown) -> Result<(), AllocError>
    ensures { OnOk result (string_bytes text.new ≡ string_bytes text.old ++ text_of shown) }
{
    match shown {
        Shown::Instruction(instr) => {
            push_mnemonic(text, instr)?;
            push_operands(text, operands_of(instr))
        }
        Shown::Datum(byte) => {
            text.push_str("DB ")?;
            push_byte(text, byte)
        }
    }
}

/// The first line of the listing of bytes, the first of which is at this address.
///
/// An undefined opcode has a line of its own, and so has the first byte of an instruction that is cut
/// off by the end of the bytes.
pub fn line_at(alloc: Global, bytes: &[u8], address: u16) -> Result<Line, AllocError>
    requires { 0 < length bytes.now }
    ensures address { IfOk result (λ line. line.address ≡ address) }
    ensures length { IfOk result (λ line. line.length ≡ (first_shown bytes.now).1) }
    ensures text { IfOk result (λ line. string_bytes line.text ≡ first_text bytes.now) }
{
    let (shown, length) = match next_shown(bytes) {
        Some(next) => next,
        None => (Shown::Datum(bytes[0]), 1),
    };
    let mut text = String::new(alloc);
    push_text(&mut text, shown)?;
    Ok(Line {
        address,
        length,
        text,
    })
}
