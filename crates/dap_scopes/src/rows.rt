//! The rows of the board's own scopes.
ghost use Rattle.std.specs.Prelude.{◌≡◌, ◌∷◌, ◌++◌, ◌+◌, ◌*◌, [], List, IfOk, OnOk, map};
ghost use Rattle.i80_devs.specs.Past.{Operation, RepresentsPast, panel_after};
ghost use Rattle.lab_core.specs.Board.{Board};
ghost use Rattle.lab_core.specs.Labs.{RepresentsBoard};
ghost use Rattle.lab_views.specs.Paging.{page};
ghost use Rattle.dap_scopes.specs.Rows as rows_of;

use crate::texts::{address_text, expression_at, part_expression};
use asm_build::symbols::{Symbol, Symbols};
use base_text::sequence::Sequence;
use base_text::text::Text;
use dap_messages::message::{EditorVariable, ShownValue, ValueFormat};
use dap_values::format::{byte_shown, word_shown};
use i80_base::memory::MEMORY_SIZE;
use i80_devs::devices::Devices;
use i80_exec::registers::{Interrupts, Registers};
use lab_core::lab::Lab;
use lab_views::names::symbol_at;
use lab_views::paging::end_of;
use lab_views::texts::{bit_text, decimal, interrupts_text, latched_text};
use std::alloc::{AllocError, Global};

/// Rows of a scope.
pub(crate) type Rows = Sequence<EditorVariable>;

/// The number of addresses.
const ADDRESSES: u32 = MEMORY_SIZE as u32;

/// What a row shows.
#[derive(Clone, Copy)]
pub(crate) enum RowValue {
    Byte(u8),
    Word(u16),
    /// A word that may be an address.
    Address(u16),
    Flag(bool),
    Interrupts(Interrupts),
    /// The lines of a device, of which each is a bit.
    Lines(u8),
    /// The latched request.
    Latched(Option<u8>),
    Count(usize),
}

// ---- parts of the machine

fn value_text(alloc: Global, format: ValueFormat, value: RowValue) -> Result<Text, AllocError>
    ensures { IfOk result (λ text. text ≡ rows_of.value_text format value) }
{
    match value {
        RowValue::Byte(byte) => byte_shown(alloc, format, byte),
        RowValue::Word(word) => word_shown(alloc, format, word),
        RowValue::Address(word) => word_shown(alloc, format, word),
        RowValue::Flag(flag) => Text::copy_of(alloc, bit_text(flag)),
        RowValue::Interrupts(interrupts) => Text::copy_of(alloc, interrupts_text(interrupts)),
        RowValue::Lines(byte) => byte_shown(alloc, format, byte),
        RowValue::Latched(request) => latched_text(alloc, request),
        RowValue::Count(many) => decimal(alloc, many),
    }
}

fn window(value: RowValue) -> Option<u16>
    ensures { result ≡ rows_of.window value }
{
    match value {
        RowValue::Address(word) => Some(word),
        _ => None,
    }
}

fn expression_of(alloc: Global, name: &str, value: RowValue) -> Result<Option<Text>, AllocError>
    ensures { IfOk result (λ text. text ≡ rows_of.expression_of name.now value) }
{
    match value {
        RowValue::Interrupts(_) | RowValue::Lines(_) | RowValue::Latched(_) | RowValue::Count(_) =>
            Ok(None),
        RowValue::Byte(_) | RowValue::Word(_) | RowValue::Address(_) | RowValue::Flag(_) => {
            let expression = part_expression(alloc, name)?;
            Ok(Some(expression))
        }
    }
}

fn push_value(
    alloc: Global,
    rows: &mut Rows,
    format: ValueFormat,
    name: &str,
    value: RowValue,
) -> Result<(), AllocError>
    ensures { OnOk result (rows.new ≡ rows.old ++ rows_of.value_row format name.now value ∷ []) }
{
    let text = value_text(alloc, format, value)?;
    let expression = expression_of(alloc, name, value)?;
    let name = Text::copy_of(alloc, name)?;
    let memory = window(value);
    rows.push(EditorVariable {
        name,
        value: ShownValue { text, memory },
        expression,
    })
}

fn value_rows(
    alloc: Global,
    format: ValueFormat,
    parts: &[(&str, RowValue)],
) -> Result<Rows, AllocError>
    ensures { IfOk result (λ rows. rows ≡ map (λ p. rows_of.value_row format p.0.now p.1) parts.now) }
{
    let mut rows = Sequence::new(alloc);
    for (name, value) in parts {
        push_value(alloc, &mut rows, format, name, *value)?;
    }
    Ok(rows)
}

/// The word of two bytes.
fn word_of(high: u8, low: u8) -> u16
    ensures { result ≡ 256 * high + low }
{
    u16::from_be_bytes([high, low])
}

pub(crate) fn registers(
    alloc: Global,
    regs: Registers,
    format: ValueFormat,
) -> Result<Rows, AllocError>
    ensures { IfOk result (λ rows. rows ≡ rows_of.register_rows format regs) }
{
    let parts = [
        ("A", RowValue::Byte(regs.a)),
        ("B", RowValue::Byte(regs.b)),
        ("C", RowValue::Byte(regs.c)),
        ("D", RowValue::Byte(regs.d)),
        ("E", RowValue::Byte(regs.e)),
        ("H", RowValue::Byte(regs.h)),
        ("L", RowValue::Byte(regs.l)),
        ("SP", RowValue::Address(regs.sp)),
        ("PC", RowValue::Address(regs.pc)),
        ("BC", RowValue::Address(word_of(regs.b, regs.c))),
        ("DE", RowValue::Address(word_of(regs.d, regs.e))),
        ("HL", RowValue::Address(word_of(regs.h, regs.l))),
        ("PSW", RowValue::Word(word_of(regs.a, regs.flags.to_byte()))),
    ];
    value_rows(alloc, format, &parts)
}

pub(crate) fn flags(alloc: Global, regs: Registers, format: ValueFormat) -> Result<Rows, AllocError>
    ensures { IfOk result (λ rows. rows ≡ rows_of.flag_rows format regs) }
{
    let parts = [
        ("S", RowValue::Flag(regs.flags.sign())),
        ("Z", RowValue::Flag(regs.flags.zero())),
        ("AC", RowValue::Flag(regs.flags.auxiliary_carry())),
        ("P", RowValue::Flag(regs.flags.parity())),
        ("CY", RowValue::Flag(regs.flags.carry())),
        ("INTE", RowValue::Interrupts(regs.interrupts)),
    ];
    value_rows(alloc, format, &parts)
}

pub(crate) fn devices(
    alloc: Global,
    devices: &Devices,
    format: ValueFormat,
) -> Result<Rows, AllocError>
    ensures { (past : List Operation) → RepresentsPast devices.now past
        → IfOk result (λ rows. rows ≡ rows_of.device_rows format (panel_after past)) }
{
    let parts = [
        ("switches", RowValue::Lines(devices.switches())),
        ("lamps", RowValue::Lines(devices.lamps())),
        ("latched", RowValue::Latched(devices.request())),
        ("waiting", RowValue::Count(devices.bytes_waiting())),
    ];
    value_rows(alloc, format, &parts)
}

// ---- symbols and memory

fn push_symbol(
    alloc: Global,
    rows: &mut Rows,
    format: ValueFormat,
    name: &str,
    symbol: Symbol,
) -> Result<(), AllocError>
    ensures { OnOk result (rows.new
        ≡ rows.old ++ rows_of.symbol_row format (name.now, symbol) ∷ []) }
{
    let text = word_shown(alloc, format, symbol.value)?;
    let expression = Text::copy_of(alloc, name)?;
    let name = Text::copy_of(alloc, name)?;
    rows.push(EditorVariable {
        name,
        value: ShownValue {
            text,
            memory: Some(symbol.value),
        },
        expression: Some(expression),
    })
}

/// `count` symbols from one on, in order of definition.
pub(crate) fn symbols(
    alloc: Global,
    symbols: &Symbols,
    start: u32,
    count: u32,
    format: ValueFormat,
) -> Result<Rows, AllocError>
    ensures { IfOk result (λ rows. rows
        ≡ map (rows_of.symbol_row format) (page start count symbols.now)) }
{
    let end = end_of(start, count, symbols.len());
    let mut rows = Sequence::new(alloc);
    for index in start as usize..end {
        let (name, symbol) = symbol_at(symbols, index);
        push_symbol(alloc, &mut rows, format, name, symbol)?;
    }
    Ok(rows)
}

/// Appends a row for what is at an address, whose expression begins so.
pub(crate) fn push_at(
    alloc: Global,
    rows: &mut Rows,
    front: &str,
    text: Text,
    address: u16,
) -> Result<(), AllocError>
    ensures { OnOk result (rows.new ≡ rows.old ++ rows_of.row_at front.now text address ∷ []) }
{
    let name = address_text(alloc, address)?;
    let expression = expression_at(alloc, front, address)?;
    rows.push(EditorVariable {
        name,
        value: ShownValue {
            text,
            memory: Some(address),
        },
        expression: Some(expression),
    })
}

fn push_byte(
    alloc: Global,
    lab: &Lab,
    rows: &mut Rows,
    address: u16,
    format: ValueFormat,
) -> Result<(), AllocError>
    ensures { (b : Board) → RepresentsBoard lab.now b
        → OnOk result (rows.new ≡ rows.old ++ rows_of.memory_row format b.machine address ∷ []) }
{
    let text = byte_shown(alloc, format, lab.peek(address))?;
    push_at(alloc, rows, "[", text, address)
}

/// `count` bytes from an address on, but none past the last address.
pub(crate) fn memory(
    alloc: Global,
    lab: &Lab,
    start: u32,
    count: u32,
    format: ValueFormat,
) -> Result<Rows, AllocError>
    ensures { (b : Board) → RepresentsBoard lab.now b
        → IfOk result (λ rows. rows ≡ rows_of.memory_rows format b.machine start count) }
{
    let many = count.min(ADDRESSES.saturating_sub(start));
    let mut rows = Sequence::new(alloc);
    for offset in 0..many {
        push_byte(alloc, lab, &mut rows, (start + offset) as u16, format)?;
    }
    Ok(rows)
}
