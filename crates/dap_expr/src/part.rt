//! The machine's parts, their names and their values.
ghost use Rattle.std.specs.Prelude.{◌≡◌, ◌+◌, ◌*◌, map};
ghost use Rattle.std.specs.Char.{to_ascii_uppercase};
ghost use Rattle.std.specs.Int.{from_bool};
ghost use Rattle.dap_expr.specs.Parts as parts;

use asm_syntax::keyword::RegisterWord;
use i80_exec::registers::Registers;

/// A part of the machine that an expression can name.
#[derive(Clone, Copy)]
pub enum Part {
    /// What a register word names: M is the byte at HL, and PSW is A and the flag byte.
    Register(RegisterWord),
    Bc,
    De,
    Hl,
    Pc,
    Sign,
    Zero,
    Parity,
    Carry,
    AuxiliaryCarry,
}

fn register_name(word: RegisterWord) -> &'static str
    ensures { result.now ≡ parts.register_name word }
{
    match word {
        RegisterWord::A => "$A",
        RegisterWord::B => "$B",
        RegisterWord::C => "$C",
        RegisterWord::D => "$D",
        RegisterWord::E => "$E",
        RegisterWord::H => "$H",
        RegisterWord::L => "$L",
        RegisterWord::M => "$M",
        RegisterWord::Sp => "$SP",
        RegisterWord::Psw => "$PSW",
    }
}

/// The name of a part that no symbol has.
pub fn own_name(part: Part) -> &'static str
    ensures { result.now ≡ parts.own_name part }
{
    match part {
        Part::Register(word) => register_name(word),
        Part::Bc => "$BC",
        Part::De => "$DE",
        Part::Hl => "$HL",
        Part::Pc => "$PC",
        Part::Sign => "$S",
        Part::Zero => "$Z",
        Part::Parity => "$P",
        Part::Carry => "$CY",
        Part::AuxiliaryCarry => "$AC",
    }
}

/// The part with this name that a symbol may have too.
pub fn part_named(name: &[u8]) -> Option<Part>
    ensures { result ≡ parts.part_named name.now }
{
    match name {
        b"BC" => Some(Part::Bc),
        b"DE" => Some(Part::De),
        b"HL" => Some(Part::Hl),
        b"PC" => Some(Part::Pc),
        b"S" => Some(Part::Sign),
        b"Z" => Some(Part::Zero),
        b"P" => Some(Part::Parity),
        b"CY" => Some(Part::Carry),
        b"AC" => Some(Part::AuxiliaryCarry),
        _ => None,
    }
}

/// The same in either case of letters.
pub(crate) fn part_in_any_case(name: &[u8]) -> Option<Part>
    ensures { result ≡ parts.part_named (map to_ascii_uppercase name.now) }
{
    match name {
        [letter] => part_named(&[letter.to_ascii_uppercase()]),
        [first, second] => {
            part_named(&[first.to_ascii_uppercase(), second.to_ascii_uppercase()])
        }
        _ => None,
    }
}

fn register_owning(name: &[u8]) -> Option<RegisterWord>
    ensures { result ≡ parts.register_owning name.now }
{
    match name {
        b"$A" => Some(RegisterWord::A),
        b"$B" => Some(RegisterWord::B),
        b"$C" => Some(RegisterWord::C),
        b"$D" => Some(RegisterWord::D),
        b"$E" => Some(RegisterWord::E),
        b"$H" => Some(RegisterWord::H),
        b"$L" => Some(RegisterWord::L),
        b"$M" => Some(RegisterWord::M),
        b"$SP" => Some(RegisterWord::Sp),
        b"$PSW" => Some(RegisterWord::Psw),
        _ => None,
    }
}

/// The part that alone has this name.
pub fn part_owning(name: &[u8]) -> Option<Part>
    ensures { result ≡ parts.part_owning name.now }
{
    match name {
        b"$BC" => Some(Part::Bc),
        b"$DE" => Some(Part::De),
        b"$HL" => Some(Part::Hl),
        b"$PC" => Some(Part::Pc),
        b"$S" => Some(Part::Sign),
        b"$Z" => Some(Part::Zero),
        b"$P" => Some(Part::Parity),
        b"$CY" => Some(Part::Carry),
        b"$AC" => Some(Part::AuxiliaryCarry),
        _ => match register_owning(name) {
            Some(word) => Some(Part::Register(word)),
            None => None,
        },
    }
}

fn word(high: u8, low: u8) -> u16
    ensures { result ≡ 256 * high + low }
{
    u16::from(high) * 256 + u16::from(low)
}

/// The address in HL.
pub fn hl(regs: Registers) -> u16
    ensures { result ≡ 256 * regs.h + regs.l }
{
    word(regs.h, regs.l)
}

fn register_value(regs: Registers, m: u8, name: RegisterWord) -> u16
    ensures { result ≡ parts.register_value regs m name }
{
    match name {
        RegisterWord::A => u16::from(regs.a),
        RegisterWord::B => u16::from(regs.b),
        RegisterWord::C => u16::from(regs.c),
        RegisterWord::D => u16::from(regs.d),
        RegisterWord::E => u16::from(regs.e),
        RegisterWord::H => u16::from(regs.h),
        RegisterWord::L => u16::from(regs.l),
        RegisterWord::M => u16::from(m),
        RegisterWord::Sp => regs.sp,
        RegisterWord::Psw => word(regs.a, regs.flags.to_byte()),
    }
}

fn bit(flag: bool) -> u16
    ensures { result ≡ from_bool flag }
{
    u16::from(flag)
}

/// The value of a part, where `m` is the byte at HL.
pub fn part_value(regs: Registers, m: u8, part: Part) -> u16
    ensures { result ≡ parts.part_value regs m part }
{
    match part {
        Part::Register(name) => register_value(regs, m, name),
        Part::Bc => word(regs.b, regs.c),
        Part::De => word(regs.d, regs.e),
        Part::Hl => hl(regs),
        Part::Pc => regs.pc,
        Part::Sign => bit(regs.flags.sign()),
        Part::Zero => bit(regs.flags.zero()),
        Part::Parity => bit(regs.flags.parity()),
        Part::Carry => bit(regs.flags.carry()),
        Part::AuxiliaryCarry => bit(regs.flags.auxiliary_carry()),
    }
}
