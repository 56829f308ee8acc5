//! Changes of places by hand.
ghost use Rattle.std.specs.Prelude.{◌≡◌, ◌≢◌, ◌≤◌, ◌*◌, ◌+◌, Err, IfOk};
ghost use Rattle.std.specs.Int.{from_bool};
ghost use Rattle.lab_core.specs.Board.{Board};
ghost use Rattle.lab_core.specs.Labs.{RepresentsBoard};
ghost use Rattle.dap_values.specs.Targets.{size_of, largest};
ghost use Rattle.dap_values.specs.Changes as changes;
ghost use Rattle.dap_values.specs.Changes.{value_taken, input_of};

use crate::target::{Size, Target};
use asm_syntax::keyword::RegisterWord;
use base_text::sequence::Bytes;
use dap_expr::part::{Part, hl};
use dap_history::input::Input;
use i80_base::flags::Flags;
use i80_exec::registers::Registers;
use lab_core::lab::Lab;
use std::alloc::{AllocError, Global};

/// Why a place can't get a value.
#[derive(Clone, Copy)]
pub enum ChangeFault {
    OutOfMemory,
    /// The value is larger than the place takes.
    TooLarge { most: u16 },
    /// The second byte of a word at FFFF would be at 0000.
    NoRoom,
}

impl From<AllocError> for ChangeFault {
    ghost use Rattle.dap_values.specs.declared.change.ChangeFault.TheVariants.{OutOfMemory};

    ghost from_gives = { λ _ fault. fault ≡ OutOfMemory };

    fn from(_: AllocError) -> ChangeFault {
        ChangeFault::OutOfMemory
    }
}

// ---- the values that a place takes

fn takes(size: Size, value: u16) -> bool
    ensures { result ≡ changes.takes size value }
{
    match size {
        Size::Flag => value < 2,
        Size::Byte => value < 256 || 65280 <= value,
        Size::Word => true,
    }
}

fn has_room(target: Target) -> bool
    ensures { result ≡ changes.has_room target }
{
    match target {
        Target::Word(address) => address != 65535,
        _ => true,
    }
}

fn in_size(size: Size, value: u16) -> u16
    ensures value { result ≡ changes.in_size size value }
    ensures byte { size ≡ Size.Byte → result ≤ 255 }
{
    match size {
        Size::Byte => value % 256,
        Size::Flag | Size::Word => value,
    }
}

fn psw_taken(value: u16) -> u16
    ensures { result ≡ changes.psw_taken value }
{
    let [high, low] = value.to_be_bytes();
    u16::from(high) * 256 + u16::from(Flags::from_byte(low).to_byte())
}

/// What a place holds of a value that it takes.
pub fn value_taken(target: Target, value: u16) -> u16
    ensures value { result ≡ value_taken target value }
    ensures byte { size_of target ≡ Size.Byte → result ≤ 255 }
{
    match target {
        Target::Part(Part::Register(RegisterWord::Psw)) => psw_taken(value),
        _ => in_size(target.size(), value),
    }
}

// ---- registers and flags

/// A bit of the flag byte.
fn bit(flag: bool, weight: u8) -> u8
    ensures value { result ≡ weight * from_bool flag }
    ensures most { result ≤ weight }
{
    if flag { weight } else { 0 }
}

#[tactic(auto, using(crate::proofs::ChangeLemmas::flags_kept))]
fn flags_from(s: bool, z: bool, ac: bool, p: bool, cy: bool) -> Flags
    ensures { result ≡ record { s = s; z = z; ac = ac; p = p; cy = cy } }
{
    let upper = bit(s, 128) + bit(z, 64) + bit(ac, 16);
    Flags::from_byte(upper + bit(p, 4) + 2 + bit(cy, 1))
}

fn with_flag(flags: Flags, part: Part, set: bool) -> Flags
    ensures { result ≡ changes.with_flag flags part set }
{
    let (s, z, ac) = (flags.sign(), flags.zero(), flags.auxiliary_carry());
    let (p, cy) = (flags.parity(), flags.carry());
    match part {
        Part::Sign => flags_from(set, z, ac, p, cy),
        Part::Zero => flags_from(s, set, ac, p, cy),
        Part::AuxiliaryCarry => flags_from(s, z, set, p, cy),
        Part::Parity => flags_from(s, z, ac, set, cy),
        Part::Carry => flags_from(s, z, ac, p, set),
        _ => flags,
    }
}

fn with_register(regs: Registers, name: RegisterWord, value: u16) -> Registers
    ensures { result ≡ changes.with_register regs name value }
{
    let mut regs = regs;
    let [high, low] = value.to_be_bytes();
    match name {
        RegisterWord::A => regs.a = low,
        RegisterWord::B => regs.b = low,
        RegisterWord::C => regs.c = low,
        RegisterWord::D => regs.d = low,
        RegisterWord::E => regs.e = low,
        RegisterWord::H => regs.h = low,
        RegisterWord::L => regs.l = low,
        RegisterWord::M => (),
        RegisterWord::Sp => regs.sp = value,
        RegisterWord::Psw => {
            regs.a = high;
            regs.flags = Flags::from_byte(low);
        }
    }
    regs
}

fn with_part(regs: Registers, part: Part, value: u16) -> Registers
    ensures { result ≡ changes.with_part regs part value }
{
    let [high, low] = value.to_be_bytes();
    match part {
        Part::Register(name) => with_register(regs, name, value),
        Part::Bc => Registers {
            b: high,
            c: low,
            ..regs
        },
        Part::De => Registers {
            d: high,
            e: low,
            ..regs
        },
        Part::Hl => Registers {
            h: high,
            l: low,
            ..regs
        },
        Part::Pc => Registers { pc: value, ..regs },
        flag => Registers {
            flags: with_flag(regs.flags, flag, value == 1),
            ..regs
        },
    }
}

// ---- the input

fn write_byte(alloc: Global, address: u16, value: u16) -> Result<Input, AllocError>
    ensures { IfOk result (λ input. input ≡ changes.byte_written address value) }
{
    let [_, low] = value.to_be_bytes();
    let bytes = Bytes::copy_of(alloc, &[low])?;
    Ok(Input::Write { address, bytes })
}

fn write_word(alloc: Global, address: u16, value: u16) -> Result<Input, AllocError>
    ensures { IfOk result (λ input. input ≡ changes.word_written address value) }
{
    let [high, low] = value.to_be_bytes();
    let bytes = Bytes::copy_of(alloc, &[low, high])?;
    Ok(Input::Write { address, bytes })
}

fn change_of(
    alloc: Global,
    regs: Registers,
    target: Target,
    value: u16,
) -> Result<Input, AllocError>
    ensures { IfOk result (λ input. input ≡ changes.change_of regs target value) }
{
    match target {
        Target::Part(Part::Register(RegisterWord::M)) => write_byte(alloc, hl(regs), value),
        Target::Part(part) => Ok(Input::Registers(with_part(regs, part, value))),
        Target::Byte(address) => write_byte(alloc, address, value),
        Target::Word(address) => write_word(alloc, address, value),
    }
}

/// The input of a run by which a place gets a value.
///
/// Fails with `TooLarge` where a flag would get another value than 0 or 1, or a byte one that isn't a byte
/// for the assembler: from 0 to FF or from FF00 to FFFF.
pub fn input_for(alloc: Global, lab: &Lab, target: Target, value: u16) -> Result<Input, ChangeFault>
    ensures { (b : Board) → RepresentsBoard lab.now b → result ≢ Err ChangeFault.OutOfMemory
        → result ≡ input_of b.machine.regs target value }
{
    if !takes(target.size(), value) {
        let most = target.size().largest();
        return Err(ChangeFault::TooLarge { most });
    }
    if !has_room(target) {
        return Err(ChangeFault::NoRoom);
    }
    Ok(change_of(alloc, lab.regs(), target, value)?)
}
