//! Registers and endings as text: hexadecimal numbers are upper case and of fixed width.
ghost use Rattle.std.specs.Prelude.{◌≡◌, ◌++◌, OnOk, string_bytes, codes};
ghost use Rattle.i80_base.specs.FlagValues.{flag_byte};
ghost use Rattle.base_text.specs.Hexadecimal.{upper_byte, upper_word};
ghost use Rattle.cli_io.specs.Report.{line};
ghost use Rattle.cli_run.specs.Printed.{field, register_line};
ghost use Rattle.cli_run.specs.RunText.{word_of};

use crate::ending::Ending;
use base_text::hexadecimal::{push_byte, push_word};
use i80_exec::registers::Registers;
use std::alloc::AllocError;

/// Appends a name, and a byte as two digits.
pub fn push_field(text: &mut String, name: &str, byte: u8) -> Result<(), AllocError>
    ensures { OnOk result (string_bytes text.new ≡ string_bytes text.old ++ field name.now byte) }
{
    text.push_str(name)?;
    push_byte(text, byte)?;
    Ok(())
}

fn push_pc_and_psw(text: &mut String, regs: &Registers) -> Result<(), AllocError>
    ensures { OnOk result (string_bytes text.new ≡ string_bytes text.old
        ++ codes "PC=" ++ upper_word regs.now.pc
        ++ field (codes " A=") regs.now.a ++ field (codes " F=") (flag_byte regs.now.flags)) }
{
    text.push_str("PC=")?;
    push_word(text, regs.pc)?;
    push_field(text, " A=", regs.a)?;
    push_field(text, " F=", regs.flags.to_byte())?;
    Ok(())
}

fn push_bc_and_de(text: &mut String, regs: &Registers) -> Result<(), AllocError>
    ensures { OnOk result (string_bytes text.new ≡ string_bytes text.old
        ++ field (codes " B=") regs.now.b ++ field (codes " C=") regs.now.c
        ++ field (codes " D=") regs.now.d ++ field (codes " E=") regs.now.e) }
{
    push_field(text, " B=", regs.b)?;
    push_field(text, " C=", regs.c)?;
    push_field(text, " D=", regs.d)?;
    push_field(text, " E=", regs.e)?;
    Ok(())
}

fn push_hl_and_sp(text: &mut String, regs: &Registers) -> Result<(), AllocError>
    ensures { OnOk result (string_bytes text.new ≡ string_bytes text.old
        ++ field (codes " H=") regs.now.h ++ field (codes " L=") regs.now.l
        ++ codes " SP=" ++ upper_word regs.now.sp) }
{
    push_field(text, " H=", regs.h)?;
    push_field(text, " L=", regs.l)?;
    text.push_str(" SP=")?;
    push_word(text, regs.sp)?;
    Ok(())
}

/// Appends a line such as `PC=0002 A=6C F=02 B=00 C=00 D=00 E=00 H=00 L=00 SP=0000`.
pub fn push_registers(text: &mut String, regs: &Registers) -> Result<(), AllocError>
    ensures { OnOk result (string_bytes text.new ≡ string_bytes text.old ++ register_line regs.now) }
{
    push_pc_and_psw(text, regs)?;
    push_bc_and_de(text, regs)?;
    push_hl_and_sp(text, regs)?;
    text.push_str("\n")?;
    Ok(())
}

/// Appends the line that says how a run ended.
pub fn push_ending(text: &mut String, ending: Ending) -> Result<(), AllocError>
    ensures { OnOk result (string_bytes text.new ≡ string_bytes text.old ++ line (word_of ending)) }
{
    match ending {
        Ending::Halted => text.push_str("halted")?,
        Ending::Waiting => text.push_str("waiting")?,
        Ending::Undefined(opcode) => push_field(text, "undefined ", opcode)?,
        Ending::Limit => text.push_str("limit")?,
    }
    text.push_str("\n")?;
    Ok(())
}
