//! What an instruction of the 8080 is made of (8080 User's Manual, chapter 4).
ghost use Rattle.std.specs.Prelude.{◌≡◌};
ghost use Rattle.i80_base.specs.Instructions.{byte_instruction, word_instruction};

/// What a three-bit code names: a register, or `M`, the byte in memory at HL.
#[derive(Clone, Copy)]
pub enum Reg {
    B,
    C,
    D,
    E,
    H,
    L,
    M,
    A,
}

/// One of the seven registers, where `M` can't stand.
#[derive(Clone, Copy)]
pub enum Register {
    B,
    C,
    D,
    E,
    H,
    L,
    A,
}

impl From<Register> for Reg {
    ghost use Rattle.i80_base.specs.Codes.{reg_of};

    ghost from_gives = { λ register reg. reg ≡ reg_of register };

    fn from(register: Register) -> Reg {
        match register {
            Register::B => Reg::B,
            Register::C => Reg::C,
            Register::D => Reg::D,
            Register::E => Reg::E,
            Register::H => Reg::H,
            Register::L => Reg::L,
            Register::A => Reg::A,
        }
    }
}

/// A register pair, named by its first register, or the stack pointer.
#[derive(Clone, Copy)]
pub enum Pair {
    B,
    D,
    H,
    Sp,
}

/// What PUSH and POP move: a register pair, or A and the flag byte.
#[derive(Clone, Copy)]
pub enum StackPair {
    B,
    D,
    H,
    Psw,
}

/// A pair that holds the address for STAX and LDAX.
#[derive(Clone, Copy)]
pub enum IndexPair {
    B,
    D,
}

/// A condition of a jump, call or return.
#[derive(Clone, Copy)]
pub enum Cond {
    NotZero,
    Zero,
    NoCarry,
    Carry,
    ParityOdd,
    ParityEven,
    Plus,
    Minus,
}

/// An operation of the accumulator with a byte.
#[derive(Clone, Copy)]
pub enum Operation {
    Add,
    Adc,
    Sub,
    Sbb,
    Ana,
    Xra,
    Ora,
    Cmp,
}

/// A rotation of the accumulator by one bit.
#[derive(Clone, Copy)]
pub enum Rotation {
    Rlc,
    Rrc,
    Ral,
    Rar,
}

/// The number of a restart: RST n goes to address 8n.
#[derive(Clone, Copy)]
pub enum Vector {
    V0,
    V1,
    V2,
    V3,
    V4,
    V5,
    V6,
    V7,
}

impl Vector {
    ghost use Rattle.std.specs.Prelude.{◌<◌};
    ghost use Rattle.i80_base.specs.Codes.{vector_code};

    /// The n of RST n.
    pub fn number(self) -> u8
        ensures code { result ≡ vector_code self }
        ensures few { result < 8 }
    {
        match self {
            Vector::V0 => 0,
            Vector::V1 => 1,
            Vector::V2 => 2,
            Vector::V3 => 3,
            Vector::V4 => 4,
            Vector::V5 => 5,
            Vector::V6 => 6,
            Vector::V7 => 7,
        }
    }
}

/// An instruction with its operand. Each value has an encoding: MOV is three instructions, as in
/// the manual, so that there is no `MOV M,M`.
#[derive(Clone, Copy)]
pub enum Instr {
    Nop,
    Lxi(Pair, u16),
    Stax(IndexPair),
    Ldax(IndexPair),
    Shld(u16),
    Lhld(u16),
    Sta(u16),
    Lda(u16),
    Inx(Pair),
    Dcx(Pair),
    Dad(Pair),
    Inr(Reg),
    Dcr(Reg),
    Mvi(Reg, u8),
    Rotate(Rotation),
    Daa,
    Cma,
    Stc,
    Cmc,
    /// `MOV r1,r2`: to the first register from the second.
    Mov(Register, Register),
    /// `MOV r,M`.
    MovFromM(Register),
    /// `MOV M,r`.
    MovToM(Register),
    Hlt,
    /// ADD to CMP with a register or M.
    Alu(Operation, Reg),
    /// ADI to CPI with the byte after the opcode.
    AluImmediate(Operation, u8),
    Jmp(u16),
    JumpIf(Cond, u16),
    Call(u16),
    CallIf(Cond, u16),
    Ret,
    RetIf(Cond),
    Rst(Vector),
    Push(StackPair),
    Pop(StackPair),
    Xthl,
    Xchg,
    Pchl,
    Sphl,
    Out(u8),
    In(u8),
    Di,
    Ei,
}

/// An instruction that lacks the byte after its opcode.
#[derive(Clone, Copy)]
pub enum ByteOperation {
    Mvi(Reg),
    AluImmediate(Operation),
    Out,
    In,
}

impl ByteOperation {
    /// The instruction with this byte.
    pub fn instruction(self, byte: u8) -> Instr
        ensures { result ≡ byte_instruction self byte }
    {
        match self {
            ByteOperation::Mvi(reg) => Instr::Mvi(reg, byte),
            ByteOperation::AluImmediate(operation) => Instr::AluImmediate(operation, byte),
            ByteOperation::Out => Instr::Out(byte),
            ByteOperation::In => Instr::In(byte),
        }
    }
}

/// An instruction that lacks the word after its opcode.
#[derive(Clone, Copy)]
pub enum WordOperation {
    Lxi(Pair),
    Shld,
    Lhld,
    Sta,
    Lda,
    Jmp,
    JumpIf(Cond),
    Call,
    CallIf(Cond),
}

impl WordOperation {
    /// The instruction with this word.
    pub fn instruction(self, word: u16) -> Instr
        ensures { result ≡ word_instruction self word }
    {
        match self {
            WordOperation::Lxi(pair) => Instr::Lxi(pair, word),
            WordOperation::Shld => Instr::Shld(word),
            WordOperation::Lhld => Instr::Lhld(word),
            WordOperation::Sta => Instr::Sta(word),
            WordOperation::Lda => Instr::Lda(word),
            WordOperation::Jmp => Instr::Jmp(word),
            WordOperation::JumpIf(cond) => Instr::JumpIf(cond, word),
            WordOperation::Call => Instr::Call(word),
            WordOperation::CallIf(cond) => Instr::CallIf(cond, word),
        }
    }
}

/// Why no instruction was read.
#[derive(Clone, Copy, PartialEq, Eq)]
pub enum DecodeFault {
    /// The first byte is one of the twelve undefined opcodes.
    Undefined,
    /// The bytes end before the instruction does. It needs this many.
    Short { needed: u8 },
}
