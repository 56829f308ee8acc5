//! Values as an editor shows them.
ghost use Rattle.std.specs.Prelude.{◌≡◌, ◌≤◌, IfOk, Ok};
ghost use Rattle.lab_core.specs.Board.{Board};
ghost use Rattle.lab_core.specs.Labs.{RepresentsBoard};
ghost use Rattle.dap_values.specs.Targets.{size_of};
ghost use Rattle.dap_values.specs.Faults.{LookGives};
ghost use Rattle.dap_values.specs.Shown as shown;

use crate::fault::LookFault;
use crate::format::{byte_shown, word_shown};
use crate::target::{Size, Target, value_at};
use asm_syntax::keyword::RegisterWord;
use base_text::text::Text;
use dap_expr::part::{Part, hl};
use dap_messages::message::{ShownValue, ValueFormat};
use i80_exec::registers::Registers;
use lab_core::lab::Lab;
use lab_views::texts::decimal;
use std::alloc::{AllocError, Global};

fn value_text(
    alloc: Global,
    size: Size,
    value: u16,
    format: ValueFormat,
) -> Result<Text, AllocError>
    requires { size ≡ Size.Byte → value ≤ 255 }
    ensures { IfOk result (λ text. text ≡ shown.value_text size value format) }
{
    match size {
        Size::Flag => decimal(alloc, usize::from(value)),
        Size::Byte => byte_shown(alloc, format, value as u8),
        Size::Word => word_shown(alloc, format, value),
    }
}

fn part_memory(regs: Registers, part: Part, value: u16) -> Option<u16>
    ensures { result ≡ shown.part_memory regs part value }
{
    match part {
        Part::Register(RegisterWord::M) => Some(hl(regs)),
        Part::Register(RegisterWord::Sp) => Some(value),
        Part::Bc | Part::De | Part::Hl | Part::Pc => Some(value),
        _ => None,
    }
}

fn memory_of(regs: Registers, target: Target, value: u16) -> Option<u16>
    ensures { result ≡ shown.memory_of regs target value }
{
    match target {
        Target::Part(part) => part_memory(regs, part, value),
        Target::Byte(address) | Target::Word(address) => Some(address),
    }
}

/// A value of a place.
pub(crate) fn shown_as(
    alloc: Global,
    regs: Registers,
    target: Target,
    value: u16,
    format: ValueFormat,
) -> Result<ShownValue, LookFault>
    requires { size_of target ≡ Size.Byte → value ≤ 255 }
    ensures { LookGives result (Ok (shown.shown_as regs target value format)) }
{
    let text = value_text(alloc, target.size(), value, format)?;
    let memory = memory_of(regs, target, value);
    Ok(ShownValue { text, memory })
}

/// What a place holds.
pub(crate) fn shown_at(
    alloc: Global,
    lab: &Lab,
    target: Target,
    format: ValueFormat,
) -> Result<ShownValue, LookFault>
    ensures { (b : Board) → RepresentsBoard lab.now b
        → LookGives result (Ok (shown.shown_at b.machine target format)) }
{
    shown_as(alloc, lab.regs(), target, value_at(lab, target), format)
}

/// A value that is no place's.
pub(crate) fn value_shown(
    alloc: Global,
    value: u16,
    format: ValueFormat,
) -> Result<ShownValue, LookFault>
    ensures { LookGives result (Ok (shown.value_shown value format)) }
{
    let text = word_shown(alloc, format, value)?;
    Ok(ShownValue {
        text,
        memory: Some(value),
    })
}
