//! The bytes of actions.
ghost use Rattle.std.specs.Prelude.{◌≡◌, ℕ, List, Option, Result, IfOk};
ghost use Rattle.i80_rows.specs.Encoding.{encoding_of};
ghost use Rattle.asm_syntax.specs.Outcome.{Fault, LineGives};
ghost use Rattle.asm_encode.specs.Bytes.{instruction_bytes, datum_bytes, word_bytes, all_bytes};
ghost use Rattle.asm_encode.specs.Bytes.{append_to, bytes_of, start_of};

use crate::operand::{byte, number, restart};
use asm_expr::env::Env;
use asm_syntax::fault::LineFault;
use asm_syntax::statement::{Action, Data, Instruction, Operand};
use i80_base::instruction::Instr;
use i80_rows::encoding::encode;
use std::alloc::{AllocError, Global};

fn encoding(alloc: Global, instr: Instr) -> Result<Vec<u8>, AllocError>
    ensures { IfOk result (λ v. v.items ≡ encoding_of instr) }
{
    Vec::from_slice(alloc, encode(instr).as_slice())
}

fn instruction_bytes<E: Env>(
    alloc: Global,
    names: &E,
    here: u16,
    instruction: &Instruction,
) -> Result<Vec<u8>, LineFault>
    ensures { LineGives (λ bytes. bytes.items) result
        (instruction_bytes (E.values names.now) here instruction.now) }
{
    let instr = match instruction {
        Instruction::Alone(instr) => *instr,
        Instruction::Byte(operation, operand) => operation.instruction(byte(names, here, operand)?),
        Instruction::Word(operation, operand) => {
            operation.instruction(number(names, here, operand)?)
        }
        Instruction::Restart(operand) => Instr::Rst(restart(names, here, operand)?),
    };
    Ok(encoding(alloc, instr)?)
}

// An operand of DB or of DW.
trait ByteSource {
    // Its bytes, where names have these values and `$` is a place.
    ghost bytes: { (List ℕ → Option ℕ) → ℕ → Self → Result (List ℕ) Fault };

    // Appends its bytes.
    fn put<E: Env>(&self, names: &E, here: u16, front: &mut Vec<u8>) -> Result<(), LineFault>
        ensures { LineGives (λ _. front.new.items) result
            (append_to front.old.items (bytes (E.values names.now) here self.now)) };
}

impl ByteSource for Data {
    ghost bytes = { datum_bytes };

    fn put<E: Env>(&self, names: &E, here: u16, front: &mut Vec<u8>) -> Result<(), LineFault> {
        match self {
            Data::Text(text) => {
                front.extend_from_slice(text.as_slice())?;
                Ok(())
            }
            Data::Byte(operand) => {
                let b = byte(names, here, operand)?;
                front.push(b)?;
                Ok(())
            }
        }
    }
}

impl ByteSource for Operand {
    ghost bytes = { word_bytes };

    fn put<E: Env>(&self, names: &E, here: u16, front: &mut Vec<u8>) -> Result<(), LineFault> {
        let word = number(names, here, self)?;
        front.push((word % 256) as u8)?;
        front.push((word / 256) as u8)?;
        Ok(())
    }
}

// The bytes of each of the operands.
fn all_bytes<E: Env, T: ByteSource>(
    alloc: Global,
    names: &E,
    here: u16,
    operands: &[T],
) -> Result<Vec<u8>, LineFault>
    ensures { LineGives (λ bytes. bytes.items) result
        (all_bytes (T.bytes (E.values names.now) here) operands.now) }
{
    let mut bytes = Vec::new(alloc);
    for operand in operands {
        operand.put(names, here, &mut bytes)?;
    }
    Ok(bytes)
}

/// The bytes of an action, where `here` is the value of `$`; no bytes for DS.
pub fn bytes_of<E: Env>(
    alloc: Global,
    names: &E,
    here: u16,
    action: &Action,
) -> Result<Vec<u8>, LineFault>
    ensures { LineGives (λ bytes. bytes.items) result
        (bytes_of (E.values names.now) here action.now) }
{
    match action {
        Action::Instruction(instruction) => instruction_bytes(alloc, names, here, instruction),
        Action::Bytes(items) => all_bytes(alloc, names, here, items.as_slice()),
        Action::Words(operands) => all_bytes(alloc, names, here, operands.as_slice()),
        _ => Ok(Vec::new(alloc)),
    }
}

/// The start of the program after an action: the operand of END, if this is an END with one, else `before`.
pub fn start_of<E: Env>(
    names: &E,
    here: u16,
    before: Option<u16>,
    action: &Action,
) -> Result<Option<u16>, LineFault>
    ensures { LineGives (λ start. start) result
        (start_of (E.values names.now) here before action.now) }
{
    match action {
        Action::End(Some(operand)) => {
            let v = number(names, here, operand)?;
            Ok(Some(v))
        }
        _ => Ok(before),
    }
}
