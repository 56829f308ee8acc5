//! Mnemonics (8080/8085 Assembly Language Programming Manual, chapter 3).
ghost use Rattle.std.specs.Prelude.{◌≡◌, ◌++◌, OnOk, string_bytes};
ghost use Rattle.i80_dis.specs.Text.{condition_word, operation_word, immediate_word, rotation_word, mnemonic};
ghost use Rattle.i80_dis.specs.State.{stem, ending};

use i80_base::instruction::{Cond, Instr, Operation, Rotation};
use std::alloc::AllocError;

fn condition_word(cond: Cond) -> &'static str
    ensures { result.now ≡ condition_word cond }
{
    match cond {
        Cond::NotZero => "NZ",
        Cond::Zero => "Z",
        Cond::NoCarry => "NC",
        Cond::Carry => "C",
        Cond::ParityOdd => "PO",
        Cond::ParityEven => "PE",
        Cond::Plus => "P",
        Cond::Minus => "M",
    }
}

fn operation_word(operation: Operation) -> &'static str
    ensures { result.now ≡ operation_word operation }
{
    match operation {
        Operation::Add => "ADD",
        Operation::Adc => "ADC",
        Operation::Sub => "SUB",
        Operation::Sbb => "SBB",
        Operation::Ana => "ANA",
        Operation::Xra => "XRA",
        Operation::Ora => "ORA",
        Operation::Cmp => "CMP",
    }
}

fn immediate_word(operation: Operation) -> &'static str
    ensures { result.now ≡ immediate_word operation }
{
    match operation {
        Operation::Add => "ADI",
        Operation::Adc => "ACI",
        Operation::Sub => "SUI",
        Operation::Sbb => "SBI",
        Operation::Ana => "ANI",
        Operation::Xra => "XRI",
        Operation::Ora => "ORI",
        Operation::Cmp => "CPI",
    }
}

fn rotation_word(rotation: Rotation) -> &'static str
    ensures { result.now ≡ rotation_word rotation }
{
    match rotation {
        Rotation::Rlc => "RLC",
        Rotation::Rrc => "RRC",
        Rotation::Ral => "RAL",
        Rotation::Rar => "RAR",
    }
}

// The mnemonic without its condition.
fn stem(instr: Instr) -> &'static str
    ensures { result.now ≡ stem instr }
{
    match instr {
        Instr::Nop => "NOP",
        Instr::Lxi(..) => "LXI",
        Instr::Stax(_) => "STAX",
        Instr::Ldax(_) => "LDAX",
        Instr::Shld(_) => "SHLD",
        Instr::Lhld(_) => "LHLD",
        Instr::Sta(_) => "STA",
        Instr::Lda(_) => "LDA",
        Instr::Inx(_) => "INX",
        Instr::Dcx(_) => "DCX",
        Instr::Dad(_) => "DAD",
        Instr::Inr(_) => "INR",
        Instr::Dcr(_) => "DCR",
        Instr::Mvi(..) => "MVI",
        Instr::Rotate(rotation) => rotation_word(rotation),
        Instr::Daa => "DAA",
        Instr::Cma => "CMA",
        Instr::Stc => "STC",
        Instr::Cmc => "CMC",
        Instr::Mov(..) | Instr::MovFromM(_) | Instr::MovToM(_) => "MOV",
        Instr::Hlt => "HLT",
        Instr::Alu(operation, _) => operation_word(operation),
        Instr::AluImmediate(operation, _) => immediate_word(operation),
        Instr::Jmp(_) => "JMP",
        Instr::JumpIf(..) => "J",
        Instr::Call(_) => "CALL",
        Instr::CallIf(..) => "C",
        Instr::Ret => "RET",
        Instr::RetIf(_) => "R",
        Instr::Rst(_) => "RST",
        Instr::Push(_) => "PUSH",
        Instr::Pop(_) => "POP",
        Instr::Xthl => "XTHL",
        Instr::Xchg => "XCHG",
        Instr::Pchl => "PCHL",
        Instr::Sphl => "SPHL",
        Instr::Out(_) => "OUT",
        Instr::In(_) => "IN",
        Instr::Di => "DI",
        Instr::Ei => "EI",
    }
}

// The condition after the stem, if there is one.
fn ending(instr: Instr) -> &'static str
    ensures { result.now ≡ ending instr }
{
    match instr {
        Instr::JumpIf(cond, _) | Instr::CallIf(cond, _) | Instr::RetIf(cond) => condition_word(
            cond,
        ),
        _ => "",
    }
}

/// Appends the mnemonic of an instruction.
pub fn push_mnemonic(text: &mut String, instr: Instr) -> Result<(), AllocError>
    ensures { OnOk result (string_bytes text.new ≡ string_bytes text.old ++ mnemonic instr) }
{
    text.push_str(stem(instr))?;
    text.push_str(ending(instr))?;
    Ok(())
}
