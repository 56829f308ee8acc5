//! Writing an instruction as bytes, opcode first and words low byte first.
ghost use Rattle.std.specs.Prelude.{◌≡◌, ◌<◌, ◌≤◌, ◌∷◌, [], length};
ghost use Rattle.i80_base.specs.Codes.{reg_of, reg_code, pair_code, stack_pair_code, cond_code};
ghost use Rattle.i80_base.specs.Codes.{operation_code, rotation_code, index_pair_code};
ghost use Rattle.i80_rows.specs.Encoding.{Encodes, with_word, encoding_of};

use i80_base::instruction::{
    Cond, IndexPair, Instr, Operation, Pair, Reg, Register, Rotation, StackPair,
};
use std::marker::Model;

/// The one to three bytes of an instruction.
#[derive(Drop)]
pub struct Encoded {
    bytes: [u8; 3],
    length: u8,
}

impl Model for Encoded {
    ghost use Rattle.std.specs.Prelude.{List, ℕ, ◌≤◌, take};

    ghost Value = { List ℕ };

    ghost view = { λ e. take e.length e.bytes };

    ghost invariant = { λ e. (1 ≤ e.length) × (e.length ≤ 3) };
}

impl Encoded {
    fn one(opcode: u8) -> Encoded
        ensures { result ≡ opcode ∷ [] }
    {
        Encoded {
            bytes: [opcode, 0, 0],
            length: 1,
        }
    }

    fn two(opcode: u8, byte: u8) -> Encoded
        ensures { result ≡ opcode ∷ (byte ∷ []) }
    {
        Encoded {
            bytes: [opcode, byte, 0],
            length: 2,
        }
    }

    fn three(opcode: u8, word: u16) -> Encoded
        ensures { result ≡ with_word opcode word }
    {
        let [low, high] = word.to_le_bytes();
        Encoded {
            bytes: [opcode, low, high],
            length: 3,
        }
    }

    /// The bytes, of which there are one to three.
    pub fn as_slice(&self) -> &[u8]
        ensures bytes { result.now ≡ self.now }
        ensures some { 1 ≤ length result.now }
        ensures few { length result.now ≤ 3 }
    {
        &self.bytes[..self.length as usize]
    }
}

fn reg_code(reg: Reg) -> u8
    ensures code { result ≡ reg_code reg }
    ensures few { result < 8 }
{
    match reg {
        Reg::B => 0,
        Reg::C => 1,
        Reg::D => 2,
        Reg::E => 3,
        Reg::H => 4,
        Reg::L => 5,
        Reg::M => 6,
        Reg::A => 7,
    }
}

fn register_code(register: Register) -> u8
    ensures code { result ≡ reg_code (reg_of register) }
    ensures few { result < 8 }
{
    reg_code(Reg::from(register))
}

fn pair_code(pair: Pair) -> u8
    ensures code { result ≡ pair_code pair }
    ensures few { result < 4 }
{
    match pair {
        Pair::B => 0,
        Pair::D => 1,
        Pair::H => 2,
        Pair::Sp => 3,
    }
}

fn stack_pair_code(pair: StackPair) -> u8
    ensures code { result ≡ stack_pair_code pair }
    ensures few { result < 4 }
{
    match pair {
        StackPair::B => 0,
        StackPair::D => 1,
        StackPair::H => 2,
        StackPair::Psw => 3,
    }
}

fn index_pair_code(pair: IndexPair) -> u8
    ensures code { result ≡ index_pair_code pair }
    ensures few { result < 2 }
{
    match pair {
        IndexPair::B => 0,
        IndexPair::D => 1,
    }
}

fn cond_code(cond: Cond) -> u8
    ensures code { result ≡ cond_code cond }
    ensures few { result < 8 }
{
    match cond {
        Cond::NotZero => 0,
        Cond::Zero => 1,
        Cond::NoCarry => 2,
        Cond::Carry => 3,
        Cond::ParityOdd => 4,
        Cond::ParityEven => 5,
        Cond::Plus => 6,
        Cond::Minus => 7,
    }
}

fn operation_code(operation: Operation) -> u8
    ensures code { result ≡ operation_code operation }
    ensures few { result < 8 }
{
    match operation {
        Operation::Add => 0,
        Operation::Adc => 1,
        Operation::Sub => 2,
        Operation::Sbb => 3,
        Operation::Ana => 4,
        Operation::Xra => 5,
        Operation::Ora => 6,
        Operation::Cmp => 7,
    }
}

fn rotation_code(rotation: Rotation) -> u8
    ensures code { result ≡ rotation_code rotation }
    ensures few { result < 4 }
{
    match rotation {
        Rotation::Rlc => 0,
        Rotation::Rrc => 1,
        Rotation::Ral => 2,
        Rotation::Rar => 3,
    }
}

/// The bytes of an instruction.
#[tactic(auto, using(crate::proofs::Encoded::encoded))]
pub fn encode(instr: Instr) -> Encoded
    // The first byte names the instruction's row, and the others are its operand, low byte first.
    ensures row { Encodes instr result }
    // In numbers, the first is the opcode with the codes of its register, pair or condition.
    ensures bytes { result ≡ encoding_of instr }
{
    opcode_and_operand(instr)
}

// The bytes that `encode` returns, by the mnemonic.
#[tactic(auto, unfolding(crate::specs::Encoding::encoding_of))]
fn opcode_and_operand(instr: Instr) -> Encoded
    ensures { result ≡ encoding_of instr }
{
    match instr {
        Instr::Lxi(pair, word) => Encoded::three(16 * pair_code(pair) + 0x01, word),
        Instr::Shld(address) => Encoded::three(0x22, address),
        Instr::Lhld(address) => Encoded::three(0x2a, address),
        Instr::Sta(address) => Encoded::three(0x32, address),
        Instr::Lda(address) => Encoded::three(0x3a, address),
        Instr::Mvi(reg, byte) => Encoded::two(8 * reg_code(reg) + 0x06, byte),
        Instr::AluImmediate(operation, byte) => Encoded::two(
            0xc6 + 8 * operation_code(operation),
            byte,
        ),
        Instr::Jmp(address) => Encoded::three(0xc3, address),
        Instr::JumpIf(cond, address) => Encoded::three(0xc2 + 8 * cond_code(cond), address),
        Instr::Call(address) => Encoded::three(0xcd, address),
        Instr::CallIf(cond, address) => Encoded::three(0xc4 + 8 * cond_code(cond), address),
        Instr::Out(port) => Encoded::two(0xd3, port),
        Instr::In(port) => Encoded::two(0xdb, port),
        _ => Encoded::one(opcode_alone(instr)),
    }
}

// The opcode of an instruction without an operand.
#[tactic(auto, unfolding(crate::specs::Encoding::encoding_of))]
fn opcode_alone(instr: Instr) -> u8
    requires { length (encoding_of instr) ≡ 1 }
    ensures { result ∷ [] ≡ encoding_of instr }
{
    match instr {
        Instr::Nop => 0x00,
        Instr::Stax(pair) => 16 * index_pair_code(pair) + 0x02,
        Instr::Ldax(pair) => 16 * index_pair_code(pair) + 0x0a,
        Instr::Inx(pair) => 16 * pair_code(pair) + 0x03,
        Instr::Dcx(pair) => 16 * pair_code(pair) + 0x0b,
        Instr::Dad(pair) => 16 * pair_code(pair) + 0x09,
        Instr::Inr(reg) => 8 * reg_code(reg) + 0x04,
        Instr::Dcr(reg) => 8 * reg_code(reg) + 0x05,
        Instr::Rotate(rotation) => 8 * rotation_code(rotation) + 0x07,
        Instr::Daa => 0x27,
        Instr::Cma => 0x2f,
        Instr::Stc => 0x37,
        Instr::Cmc => 0x3f,
        Instr::Mov(to, from) => 0x40 + 8 * register_code(to) + register_code(from),
        Instr::MovFromM(to) => 0x46 + 8 * register_code(to),
        Instr::MovToM(from) => 0x70 + register_code(from),
        Instr::Hlt => 0x76,
        Instr::Alu(operation, reg) => 0x80 + 8 * operation_code(operation) + reg_code(reg),
        Instr::Ret => 0xc9,
        Instr::RetIf(cond) => 0xc0 + 8 * cond_code(cond),
        Instr::Rst(vector) => 0xc7 + 8 * vector.number(),
        Instr::Push(pair) => 0xc5 + 16 * stack_pair_code(pair),
        Instr::Pop(pair) => 0xc1 + 16 * stack_pair_code(pair),
        Instr::Xthl => 0xe3,
        Instr::Xchg => 0xeb,
        Instr::Pchl => 0xe9,
        Instr::Sphl => 0xf9,
        Instr::Di => 0xf3,
        Instr::Ei => 0xfb,
        Instr::Out(_) | Instr::In(_) | Instr::Mvi(..) | Instr::AluImmediate(..) => unreachable!(),
        Instr::Lxi(..) | Instr::Shld(_) | Instr::Lhld(_) | Instr::Sta(_) => unreachable!(),
        Instr::Lda(_) | Instr::Jmp(_) | Instr::JumpIf(..) | Instr::Call(_) => unreachable!(),
        Instr::CallIf(..) => unreachable!(),
    }
}
