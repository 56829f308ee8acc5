//! Variables of scopes that can be changed.
ghost use Rattle.std.specs.Prelude.{◌≡◌};
ghost use Rattle.dap_values.specs.Variables as variables;

use crate::target::Target;
use asm_syntax::keyword::RegisterWord;
use base_text::hexadecimal::read_word;
use dap_expr::part::{Part, own_name};

const REGISTERS: u32 = 1;

const FLAGS: u32 = 2;

const MEMORY: u32 = 5;

const STACK: u32 = 6;

const REGISTER_PARTS: [Part; 13] = [
    Part::Register(RegisterWord::A),
    Part::Register(RegisterWord::B),
    Part::Register(RegisterWord::C),
    Part::Register(RegisterWord::D),
    Part::Register(RegisterWord::E),
    Part::Register(RegisterWord::H),
    Part::Register(RegisterWord::L),
    Part::Register(RegisterWord::Sp),
    Part::Pc,
    Part::Bc,
    Part::De,
    Part::Hl,
    Part::Register(RegisterWord::Psw),
];

const FLAG_PARTS: [Part; 5] = [
    Part::Sign,
    Part::Zero,
    Part::AuxiliaryCarry,
    Part::Parity,
    Part::Carry,
];

/// A part's own name without its `$`.
fn variable_name(part: Part) -> &'static [u8]
    ensures { result.now ≡ variables.variable_name part }
{
    match own_name(part).as_bytes() {
        [_, name @ ..] => name,
        [] => &[],
    }
}

/// The part of these that has this name.
fn part_among(parts: &[Part], name: &[u8]) -> Option<Part>
    ensures { result ≡ variables.part_among parts.now name.now }
{
    parts
        .iter()
        .copied()
        .find(|part| name == variable_name(*part))
}

fn part_target(part: Option<Part>) -> Option<Target>
    ensures { result ≡ variables.part_target part }
{
    match part {
        Some(part) => Some(Target::Part(part)),
        None => None,
    }
}

fn byte_named(name: &[u8]) -> Option<Target>
    ensures { result ≡ variables.byte_named name.now }
{
    match read_word(name) {
        Some(address) => Some(Target::Byte(address)),
        None => None,
    }
}

fn word_named(name: &[u8]) -> Option<Target>
    ensures { result ≡ variables.word_named name.now }
{
    match read_word(name) {
        Some(address) => Some(Target::Word(address)),
        None => None,
    }
}

/// The place of the variable with a name in a scope.
pub(crate) fn variable_target(reference: u32, name: &str) -> Option<Target>
    ensures { result ≡ variables.variable_target reference name.now }
{
    let name = name.as_bytes();
    match reference {
        REGISTERS => part_target(part_among(&REGISTER_PARTS, name)),
        FLAGS => part_target(part_among(&FLAG_PARTS, name)),
        MEMORY => byte_named(name),
        STACK => word_named(name),
        _ => None,
    }
}
