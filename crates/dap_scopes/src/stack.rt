//! The words of the stack.
ghost use Rattle.std.specs.Prelude.{◌≡◌, ◌<◌, ◌∷◌, ◌++◌, [], IfOk, OnOk, string_bytes};
ghost use Rattle.i80_exec.specs.State.{word_at};
ghost use Rattle.lab_core.specs.Board.{Board};
ghost use Rattle.lab_core.specs.Labs.{RepresentsBoard};
ghost use Rattle.dap_scopes.specs.Stack as stack;

use crate::frame::returns_to;
use crate::rows::{Rows, push_at};
use base_text::sequence::Sequence;
use base_text::text::Text;
use dap_messages::message::ValueFormat;
use dap_values::format::word_shown;
use i80_base::memory::MEMORY_SIZE;
use lab_core::lab::Lab;
use std::alloc::{AllocError, Global};

/// The number of addresses.
const ADDRESSES: u32 = MEMORY_SIZE as u32;

/// The word at an address, low byte first. Addresses wrap.
fn word_at(lab: &Lab, address: u16) -> u16
    ensures { (b : Board) → RepresentsBoard lab.now b → result ≡ word_at b.machine address }
{
    u16::from_le_bytes([lab.peek(address), lab.peek(address.wrapping_add(1))])
}

/// The number of words that begin at SP or above it.
pub(crate) fn stack_words(sp: u16) -> u32
    ensures { result ≡ stack.stack_words sp }
{
    (ADDRESSES - u32::from(sp) + 1) / 2
}

/// The address of a word by its index.
fn stack_address(sp: u16, index: u32) -> u16
    requires { index < stack.stack_words sp }
    ensures { result ≡ stack.stack_address sp index }
{
    (u32::from(sp) + 2 * index) as u16
}

/// Appends where a return address leads back to.
fn push_return(text: &mut String, name: Option<Text>) -> Result<(), AllocError>
    ensures { OnOk result (string_bytes text.new ≡ string_bytes text.old ++ stack.return_text name) }
{
    match name {
        None => Ok(()),
        Some(name) => {
            text.push_str(", back in ")?;
            text.push_str(name.as_str())
        }
    }
}

fn stack_text(
    alloc: Global,
    lab: &Lab,
    address: u16,
    format: ValueFormat,
) -> Result<Text, AllocError>
    ensures { (b : Board) → RepresentsBoard lab.now b
        → IfOk result (λ text. text ≡ stack.stack_text format b address) }
{
    let name = returns_to(alloc, lab, address)?;
    let mut text = word_shown(alloc, format, word_at(lab, address))?.into_string();
    push_return(&mut text, name)?;
    Ok(Text::from(text))
}

fn push_word(
    alloc: Global,
    lab: &Lab,
    rows: &mut Rows,
    address: u16,
    format: ValueFormat,
) -> Result<(), AllocError>
    ensures { (b : Board) → RepresentsBoard lab.now b
        → OnOk result (rows.new ≡ rows.old ++ stack.word_row format b address ∷ []) }
{
    let text = stack_text(alloc, lab, address, format)?;
    push_at(alloc, rows, "word[", text, address)
}

/// `count` words from an index on, but none past the last address.
pub(crate) fn stack(
    alloc: Global,
    lab: &Lab,
    start: u32,
    count: u32,
    format: ValueFormat,
) -> Result<Rows, AllocError>
    ensures { (b : Board) → RepresentsBoard lab.now b
        → IfOk result (λ rows. rows ≡ stack.stack_rows format b start count) }
{
    let sp = lab.regs().sp;
    let many = count.min(stack_words(sp).saturating_sub(start));
    let mut rows = Sequence::new(alloc);
    for offset in 0..many {
        push_word(
            alloc,
            lab,
            &mut rows,
            stack_address(sp, start + offset),
            format,
        )?;
    }
    Ok(rows)
}
