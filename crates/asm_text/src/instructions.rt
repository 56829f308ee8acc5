//! Instructions: a mnemonic with the operands of its form.
ghost use Rattle.std.specs.Prelude.{◌≡◌};
ghost use Rattle.asm_syntax.specs.Lexemes.{pieces_of};
ghost use Rattle.asm_syntax.specs.Outcome.{LineGives};
ghost use Rattle.asm_text.specs.Forms.{move_of, move_between, only_named, two_operands, no_operand};
ghost use Rattle.asm_text.specs.Forms.{register_instruction, pair_instruction, index_instruction};
ghost use Rattle.asm_text.specs.Forms.{stack_instruction, instruction_of};

use crate::forms::{no_operand, only_expression, only_named, two_operands};
use crate::registers::{fit, named_operand, register_of};
use asm_lex::expression::expression;
use asm_syntax::fault::LineFault;
use asm_syntax::keyword::{
    IndexOperation, Mnemonic, PairOperation, RegisterOperation, StackOperation,
};
use asm_syntax::statement::Instruction;
use asm_syntax::token::Placed;
use i80_base::instruction::{
    ByteOperation, IndexPair, Instr, Pair, Reg, Register, StackPair, WordOperation,
};
use std::alloc::Global;

fn register_instruction(operation: RegisterOperation, reg: Reg) -> Instr
    ensures { result ≡ register_instruction operation reg }
{
    match operation {
        RegisterOperation::Increment => Instr::Inr(reg),
        RegisterOperation::Decrement => Instr::Dcr(reg),
        RegisterOperation::Alu(alu) => Instr::Alu(alu, reg),
    }
}

fn pair_instruction(operation: PairOperation, pair: Pair) -> Instr
    ensures { result ≡ pair_instruction operation pair }
{
    match operation {
        PairOperation::Increment => Instr::Inx(pair),
        PairOperation::Decrement => Instr::Dcx(pair),
        PairOperation::Add => Instr::Dad(pair),
    }
}

fn index_instruction(operation: IndexOperation, pair: IndexPair) -> Instr
    ensures { result ≡ index_instruction operation pair }
{
    match operation {
        IndexOperation::Store => Instr::Stax(pair),
        IndexOperation::Load => Instr::Ldax(pair),
    }
}

fn stack_instruction(operation: StackOperation, pair: StackPair) -> Instr
    ensures { result ≡ stack_instruction operation pair }
{
    match operation {
        StackOperation::Push => Instr::Push(pair),
        StackOperation::Pop => Instr::Pop(pair),
    }
}

fn move_between(to: Option<Register>, from: Option<Register>) -> Option<Instr>
    ensures { result ≡ move_between to from }
{
    match (to, from) {
        (Some(to), Some(from)) => Some(Instr::Mov(to, from)),
        (Some(to), None) => Some(Instr::MovFromM(to)),
        (None, Some(from)) => Some(Instr::MovToM(from)),
        (None, None) => None,
    }
}

// MOV with these operands.
fn move_of(column: usize, operands: (&[Placed], &[Placed])) -> Result<Instr, LineFault>
    ensures { LineGives (λ x. x) result
        (move_of column (pieces_of operands.entry.0.now, pieces_of operands.entry.1.now)) }
{
    let to = named_operand(column, operands.0)?;
    let from = named_operand(column, operands.1)?;
    fit(column, move_between(register_of(to), register_of(from)))
}

// MOV with its operands.
#[tactic(auto, unfolding(crate::specs::Forms::instruction_of))]
fn move_register(column: usize, tokens: &[Placed]) -> Result<Instruction, LineFault>
    ensures { LineGives (λ x. x) result (instruction_of column Mnemonic.Move (pieces_of tokens.now)) }
{
    let instr = move_of(column, two_operands(column, tokens)?)?;
    Ok(Instruction::Alone(instr))
}

// MVI with its operands.
#[tactic(auto, unfolding(crate::specs::Forms::instruction_of))]
fn move_immediate(alloc: Global, column: usize, tokens: &[Placed]) -> Result<Instruction, LineFault>
    ensures { LineGives (λ x. x) result
        (instruction_of column Mnemonic.MoveImmediate (pieces_of tokens.now)) }
{
    let (to, byte) = two_operands(column, tokens)?;
    let reg = named_operand(column, to)?;
    let byte = expression(alloc, column, byte)?;
    Ok(Instruction::Byte(ByteOperation::Mvi(reg), byte))
}

// LXI with its operands.
#[tactic(auto, unfolding(crate::specs::Forms::instruction_of))]
fn load_pair(alloc: Global, column: usize, tokens: &[Placed]) -> Result<Instruction, LineFault>
    ensures { LineGives (λ x. x) result
        (instruction_of column Mnemonic.LoadPair (pieces_of tokens.now)) }
{
    let (to, word) = two_operands(column, tokens)?;
    let pair = named_operand(column, to)?;
    let word = expression(alloc, column, word)?;
    Ok(Instruction::Word(WordOperation::Lxi(pair), word))
}

/// The instruction of a mnemonic at this column with the operands after it.
#[tactic(auto, unfolding(crate::specs::Forms::instruction_of))]
pub fn instruction(
    alloc: Global,
    column: usize,
    mnemonic: Mnemonic,
    tokens: &[Placed],
) -> Result<Instruction, LineFault>
    ensures { LineGives (λ x. x) result (instruction_of column mnemonic (pieces_of tokens.now)) }
{
    match mnemonic {
        Mnemonic::Alone(instr) => no_operand(column, Instruction::Alone(instr), tokens),
        Mnemonic::Register(operation) => {
            let reg = only_named(column, tokens)?;
            Ok(Instruction::Alone(register_instruction(operation, reg)))
        }
        Mnemonic::Move => move_register(column, tokens),
        Mnemonic::MoveImmediate => move_immediate(alloc, column, tokens),
        Mnemonic::LoadPair => load_pair(alloc, column, tokens),
        Mnemonic::Pair(operation) => {
            let pair = only_named(column, tokens)?;
            Ok(Instruction::Alone(pair_instruction(operation, pair)))
        }
        Mnemonic::Index(operation) => {
            let pair = only_named(column, tokens)?;
            Ok(Instruction::Alone(index_instruction(operation, pair)))
        }
        Mnemonic::Stack(operation) => {
            let pair = only_named(column, tokens)?;
            Ok(Instruction::Alone(stack_instruction(operation, pair)))
        }
        Mnemonic::Byte(operation) => {
            let byte = only_expression(alloc, column, tokens)?;
            Ok(Instruction::Byte(operation, byte))
        }
        Mnemonic::Word(operation) => {
            let word = only_expression(alloc, column, tokens)?;
            Ok(Instruction::Word(operation, word))
        }
        Mnemonic::Restart => Ok(Instruction::Restart(only_expression(alloc, column, tokens)?)),
    }
}
