//! The variables of the five scopes.
ghost use Rattle.std.specs.Prelude.{◌≡◌, ◌∷◌, ◌++◌, [], List, IfOk, OnOk};
ghost use Rattle.asm_syntax.specs.Numerals.{byte_text, word_text};
ghost use Rattle.i80_devs.specs.Past.{Operation, RepresentsPast, panel_after};
ghost use Rattle.lab_views.specs.Paging.{asked_for, page};
ghost use Rattle.lab_views.specs.Variables as variables;

use crate::names::symbol_at;
use crate::paging::{asked_for, end_of};
use crate::texts::{bit_text, byte_text, decimal, interrupts_text, latched_text, word_text};
use asm_build::symbols::Symbols;
use base_text::hexadecimal;
use base_text::sequence::Sequence;
use base_text::text::Text;
use i80_base::memory::MEMORY_SIZE;
use i80_devs::devices::Devices;
use i80_exec::machine::Machine;
use i80_exec::registers::Registers;
use lab_shown::shown::Variable;
use std::alloc::{AllocError, Global};

/// The most variables that are shown at once, and the usual count of symbols.
const MOST_VARIABLES: u32 = 256;

/// The number of addresses.
const ADDRESSES: u32 = MEMORY_SIZE as u32;

/// The usual count of bytes of memory.
const USUAL_BYTES: u32 = 16;

// ---- one more variable

fn push(
    alloc: Global,
    shown: &mut Sequence<Variable>,
    name: &str,
    value: Text,
) -> Result<(), AllocError>
    ensures { OnOk result (shown.new ≡ shown.old ++ variables.variable name.now value ∷ []) }
{
    let name = Text::copy_of(alloc, name)?;
    shown.push(Variable { name, value })
}

fn push_byte(
    alloc: Global,
    shown: &mut Sequence<Variable>,
    name: &str,
    byte: u8,
) -> Result<(), AllocError>
    ensures { OnOk result (shown.new
        ≡ shown.old ++ variables.variable name.now (byte_text byte) ∷ []) }
{
    let value = byte_text(alloc, byte)?;
    push(alloc, shown, name, value)
}

fn push_word(
    alloc: Global,
    shown: &mut Sequence<Variable>,
    name: &str,
    word: u16,
) -> Result<(), AllocError>
    ensures { OnOk result (shown.new
        ≡ shown.old ++ variables.variable name.now (word_text word) ∷ []) }
{
    let value = word_text(alloc, word)?;
    push(alloc, shown, name, value)
}

fn push_text(
    alloc: Global,
    shown: &mut Sequence<Variable>,
    name: &str,
    value: &str,
) -> Result<(), AllocError>
    ensures { OnOk result (shown.new
        ≡ shown.old ++ variables.variable name.now value.now ∷ []) }
{
    let value = Text::copy_of(alloc, value)?;
    push(alloc, shown, name, value)
}

// ---- the scopes

fn push_registers(
    alloc: Global,
    shown: &mut Sequence<Variable>,
    regs: Registers,
) -> Result<(), AllocError>
    requires { shown.old ≡ [] }
    ensures { OnOk result (shown.new ≡ variables.register_variables regs) }
{
    push_byte(alloc, shown, "A", regs.a)?;
    push_byte(alloc, shown, "B", regs.b)?;
    push_byte(alloc, shown, "C", regs.c)?;
    push_byte(alloc, shown, "D", regs.d)?;
    push_byte(alloc, shown, "E", regs.e)?;
    push_byte(alloc, shown, "H", regs.h)?;
    push_byte(alloc, shown, "L", regs.l)?;
    push_word(alloc, shown, "SP", regs.sp)?;
    push_word(alloc, shown, "PC", regs.pc)
}

pub(crate) fn registers(alloc: Global, regs: Registers) -> Result<Sequence<Variable>, AllocError>
    ensures { IfOk result (λ shown. shown ≡ variables.register_variables regs) }
{
    let mut shown = Sequence::new(alloc);
    push_registers(alloc, &mut shown, regs)?;
    Ok(shown)
}

fn push_flags(
    alloc: Global,
    shown: &mut Sequence<Variable>,
    regs: Registers,
) -> Result<(), AllocError>
    requires { shown.old ≡ [] }
    ensures { OnOk result (shown.new ≡ variables.flag_variables regs) }
{
    let flags = regs.flags;
    push_text(alloc, shown, "S", bit_text(flags.sign()))?;
    push_text(alloc, shown, "Z", bit_text(flags.zero()))?;
    push_text(alloc, shown, "AC", bit_text(flags.auxiliary_carry()))?;
    push_text(alloc, shown, "P", bit_text(flags.parity()))?;
    push_text(alloc, shown, "CY", bit_text(flags.carry()))?;
    push_text(alloc, shown, "INTE", interrupts_text(regs.interrupts))
}

pub(crate) fn flags(alloc: Global, regs: Registers) -> Result<Sequence<Variable>, AllocError>
    ensures { IfOk result (λ shown. shown ≡ variables.flag_variables regs) }
{
    let mut shown = Sequence::new(alloc);
    push_flags(alloc, &mut shown, regs)?;
    Ok(shown)
}

fn push_devices(
    alloc: Global,
    shown: &mut Sequence<Variable>,
    devices: &Devices,
) -> Result<(), AllocError>
    requires { shown.old ≡ [] }
    ensures { (past : List Operation) → RepresentsPast devices.now past
        → OnOk result (shown.new ≡ variables.device_variables (panel_after past)) }
{
    push_byte(alloc, shown, "switches", devices.switches())?;
    push_byte(alloc, shown, "lamps", devices.lamps())?;
    let latched = latched_text(alloc, devices.request())?;
    push(alloc, shown, "latched", latched)?;
    let waiting = decimal(alloc, devices.bytes_waiting())?;
    push(alloc, shown, "waiting", waiting)
}

pub(crate) fn devices(alloc: Global, devices: &Devices) -> Result<Sequence<Variable>, AllocError>
    ensures { (past : List Operation) → RepresentsPast devices.now past
        → IfOk result (λ shown. shown ≡ variables.device_variables (panel_after past)) }
{
    let mut shown = Sequence::new(alloc);
    push_devices(alloc, &mut shown, devices)?;
    Ok(shown)
}

/// Symbols from one on, in order of definition.
pub(crate) fn symbols(
    alloc: Global,
    symbols: &Symbols,
    start: u32,
    count: u32,
) -> Result<Sequence<Variable>, AllocError>
    ensures { IfOk result (λ shown. shown
        ≡ page start (asked_for 256 256 count) (variables.symbol_variables symbols.now)) }
{
    let most = asked_for(MOST_VARIABLES, MOST_VARIABLES, count);
    let end = end_of(start, most, symbols.len());
    let mut shown = Sequence::new(alloc);
    for index in start as usize..end {
        let (name, symbol) = symbol_at(symbols, index);
        push_word(alloc, &mut shown, name, symbol.value)?;
    }
    Ok(shown)
}

/// Bytes of memory from an address on.
pub(crate) fn memory(
    alloc: Global,
    machine: &Machine,
    start: u32,
    count: u32,
) -> Result<Sequence<Variable>, AllocError>
    ensures { IfOk result (λ shown. shown
        ≡ variables.memory_variables machine.now start (asked_for 16 256 count)) }
{
    let most = asked_for(USUAL_BYTES, MOST_VARIABLES, count);
    let many = most.min(ADDRESSES.saturating_sub(start));
    let mut shown = Sequence::new(alloc);
    for offset in 0..many {
        push_memory(alloc, &mut shown, machine, (start + offset) as u16)?;
    }
    Ok(shown)
}

fn push_memory(
    alloc: Global,
    shown: &mut Sequence<Variable>,
    machine: &Machine,
    address: u16,
) -> Result<(), AllocError>
    ensures { OnOk result (shown.new
        ≡ shown.old ++ variables.memory_variable machine.now address ∷ []) }
{
    let mut name = String::new(alloc);
    hexadecimal::push_word(&mut name, address)?;
    push_byte(alloc, shown, name.as_str(), machine.peek(address))
}
