//! Operands in a listing (8080/8085 Assembly Language Programming Manual, chapter 3): words and numbers.
ghost use Rattle.std.specs.Prelude.{◌≡◌, ◌++◌, OnOk, string_bytes};
ghost use Rattle.i80_dis.specs.Text.{register_word, pair_word, index_word, stack_word, vector_word, operands};
ghost use Rattle.i80_dis.specs.Text.{operand_field};
ghost use Rattle.i80_dis.specs.State.{operand_text, texts_of};

use asm_syntax::numeral::{push_byte, push_word};
use i80_base::instruction::{IndexPair, Instr, Pair, Reg, StackPair, Vector};
use std::alloc::AllocError;

/// An operand.
#[derive(Clone, Copy)]
pub enum Operand {
    /// A register, a pair, or the digit of RST.
    Name(&'static str),
    Byte(u8),
    Word(u16),
}

/// The operands of an instruction, from the left.
#[derive(Clone, Copy)]
pub enum Operands {
    Zero,
    One(Operand),
    Two(Operand, Operand),
}

fn register(reg: Reg) -> Operand
    ensures { operand_text result ≡ register_word reg }
{
    Operand::Name(match reg {
        Reg::B => "B",
        Reg::C => "C",
        Reg::D => "D",
        Reg::E => "E",
        Reg::H => "H",
        Reg::L => "L",
        Reg::M => "M",
        Reg::A => "A",
    })
}

fn pair(pair: Pair) -> Operand
    ensures { operand_text result ≡ pair_word pair }
{
    Operand::Name(match pair {
        Pair::B => "B",
        Pair::D => "D",
        Pair::H => "H",
        Pair::Sp => "SP",
    })
}

fn index(pair: IndexPair) -> Operand
    ensures { operand_text result ≡ index_word pair }
{
    Operand::Name(match pair {
        IndexPair::B => "B",
        IndexPair::D => "D",
    })
}

fn stack(pair: StackPair) -> Operand
    ensures { operand_text result ≡ stack_word pair }
{
    Operand::Name(match pair {
        StackPair::B => "B",
        StackPair::D => "D",
        StackPair::H => "H",
        StackPair::Psw => "PSW",
    })
}

fn restart(vector: Vector) -> Operand
    ensures { operand_text result ≡ vector_word vector }
{
    Operand::Name(match vector {
        Vector::V0 => "0",
        Vector::V1 => "1",
        Vector::V2 => "2",
        Vector::V3 => "3",
        Vector::V4 => "4",
        Vector::V5 => "5",
        Vector::V6 => "6",
        Vector::V7 => "7",
    })
}

/// The operands of an instruction.
pub fn operands_of(instr: Instr) -> Operands
    ensures { texts_of result ≡ operands instr }
{
    match instr {
        Instr::Lxi(to, word) => Operands::Two(pair(to), Operand::Word(word)),
        Instr::Mvi(to, byte) => Operands::Two(register(to), Operand::Byte(byte)),
        Instr::Mov(to, from) => Operands::Two(register(to.into()), register(from.into())),
        Instr::MovFromM(to) => Operands::Two(register(to.into()), register(Reg::M)),
        Instr::MovToM(from) => Operands::Two(register(Reg::M), register(from.into())),
        Instr::Stax(at) | Instr::Ldax(at) => Operands::One(index(at)),
        Instr::Inx(of) | Instr::Dcx(of) | Instr::Dad(of) => Operands::One(pair(of)),
        Instr::Push(of) | Instr::Pop(of) => Operands::One(stack(of)),
        Instr::Inr(of) | Instr::Dcr(of) | Instr::Alu(_, of) => Operands::One(register(of)),
        Instr::AluImmediate(_, byte) | Instr::Out(byte) | Instr::In(byte) => {
            Operands::One(Operand::Byte(byte))
        }
        Instr::Shld(word)
        | Instr::Lhld(word)
        | Instr::Sta(word)
        | Instr::Lda(word)
        | Instr::Jmp(word)
        | Instr::JumpIf(_, word)
        | Instr::Call(word)
        | Instr::CallIf(_, word) => Operands::One(Operand::Word(word)),
        Instr::Rst(vector) => Operands::One(restart(vector)),
        Instr::Nop
        | Instr::Rotate(_)
        | Instr::Daa
        | Instr::Cma
        | Instr::Stc
        | Instr::Cmc
        | Instr::Hlt
        | Instr::Ret
        | Instr::RetIf(_)
        | Instr::Xthl
        | Instr::Xchg
        | Instr::Pchl
        | Instr::Sphl
        | Instr::Di
        | Instr::Ei => Operands::Zero,
    }
}

fn push_operand(text: &mut String, operand: Operand) -> Result<(), AllocError>
    ensures { OnOk result (string_bytes text.new ≡ string_bytes text.old ++ operand_text operand) }
{
    match operand {
        Operand::Name(word) => {
            text.push_str(word)?;
            Ok(())
        }
        Operand::Byte(byte) => push_byte(text, byte),
        Operand::Word(word) => push_word(text, word),
    }
}

/// Appends a blank and the operands, separated by commas; nothing if there are none.
pub fn push_operands(text: &mut String, operands: Operands) -> Result<(), AllocError>
    ensures { OnOk result (string_bytes text.new
        ≡ string_bytes text.old ++ operand_field (texts_of operands)) }
{
    match operands {
        Operands::Zero => Ok(()),
        Operands::One(operand) => {
            text.push_str(" ")?;
            push_operand(text, operand)
        }
        Operands::Two(first, second) => {
            text.push_str(" ")?;
            push_operand(text, first)?;
            text.push_str(",")?;
            push_operand(text, second)
        }
    }
}
