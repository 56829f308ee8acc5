//! Keywords: the words that can't be names.
ghost use Rattle.std.specs.Prelude.{◌≡◌, map};
ghost use Rattle.std.specs.Char.{to_ascii_uppercase};
ghost use Rattle.std.specs.Str.{bytes_eq};
ghost use Rattle.std.specs.Map.{lookup};
ghost use Rattle.asm_syntax.specs.Words.{keyword_of};

use asm_expr::expression::{Binary, Unary};
use i80_base::instruction::{ByteOperation, Cond, Instr, Operation, Rotation, WordOperation};

/// An instruction but for its register.
#[derive(Clone, Copy)]
pub enum RegisterOperation {
    /// INR.
    Increment,
    /// DCR.
    Decrement,
    /// ADD to CMP.
    Alu(Operation),
}

/// An instruction but for its pair.
#[derive(Clone, Copy)]
pub enum PairOperation {
    /// INX.
    Increment,
    /// DCX.
    Decrement,
    /// DAD.
    Add,
}

/// An instruction but for the pair with its address.
#[derive(Clone, Copy)]
pub enum IndexOperation {
    /// STAX.
    Store,
    /// LDAX.
    Load,
}

/// An instruction but for what it moves to or from the stack.
#[derive(Clone, Copy)]
pub enum StackOperation {
    Push,
    Pop,
}

/// A mnemonic, with the operands that it needs (8080/8085 Assembly Language Programming Manual,
/// chapter 3).
#[derive(Clone, Copy)]
pub enum Mnemonic {
    /// No operands.
    Alone(Instr),
    /// A register or M.
    Register(RegisterOperation),
    /// MOV: two registers, of which one may be M.
    Move,
    /// MVI: a register or M, and a byte.
    MoveImmediate,
    /// LXI: a pair or SP, and a word.
    LoadPair,
    /// A pair or SP.
    Pair(PairOperation),
    /// B or D.
    Index(IndexOperation),
    /// A pair or PSW.
    Stack(StackOperation),
    /// A byte.
    Byte(ByteOperation),
    /// A word.
    Word(WordOperation),
    /// RST: a number from 0 to 7.
    Restart,
}

/// A directive (8080/8085 Assembly Language Programming Manual, chapter 4).
#[derive(Clone, Copy)]
pub enum Directive {
    Origin,
    Bytes,
    Words,
    Space,
    Equate,
    Set,
    If,
    Else,
    EndIf,
    End,
}

/// A register, a pair, named by its first register, SP or PSW.
#[derive(Clone, Copy, PartialEq, Eq)]
pub enum RegisterWord {
    A,
    B,
    C,
    D,
    E,
    H,
    L,
    M,
    Sp,
    Psw,
}

/// The meaning of a word that can't be a name.
#[derive(Clone, Copy)]
pub enum Keyword {
    Mnemonic(Mnemonic),
    Directive(Directive),
    Prefix(Unary),
    Infix(Binary),
    Register(RegisterWord),
}

/// The words that can't be names, in upper case.
pub const KEYWORDS: [(&str, Keyword); 113] = [
    ("NOP", Keyword::Mnemonic(Mnemonic::Alone(Instr::Nop))),
    (
        "RLC",
        Keyword::Mnemonic(Mnemonic::Alone(Instr::Rotate(Rotation::Rlc))),
    ),
    (
        "RRC",
        Keyword::Mnemonic(Mnemonic::Alone(Instr::Rotate(Rotation::Rrc))),
    ),
    (
        "RAL",
        Keyword::Mnemonic(Mnemonic::Alone(Instr::Rotate(Rotation::Ral))),
    ),
    (
        "RAR",
        Keyword::Mnemonic(Mnemonic::Alone(Instr::Rotate(Rotation::Rar))),
    ),
    ("DAA", Keyword::Mnemonic(Mnemonic::Alone(Instr::Daa))),
    ("CMA", Keyword::Mnemonic(Mnemonic::Alone(Instr::Cma))),
    ("STC", Keyword::Mnemonic(Mnemonic::Alone(Instr::Stc))),
    ("CMC", Keyword::Mnemonic(Mnemonic::Alone(Instr::Cmc))),
    ("HLT", Keyword::Mnemonic(Mnemonic::Alone(Instr::Hlt))),
    ("RET", Keyword::Mnemonic(Mnemonic::Alone(Instr::Ret))),
    ("XTHL", Keyword::Mnemonic(Mnemonic::Alone(Instr::Xthl))),
    ("XCHG", Keyword::Mnemonic(Mnemonic::Alone(Instr::Xchg))),
    ("PCHL", Keyword::Mnemonic(Mnemonic::Alone(Instr::Pchl))),
    ("SPHL", Keyword::Mnemonic(Mnemonic::Alone(Instr::Sphl))),
    ("DI", Keyword::Mnemonic(Mnemonic::Alone(Instr::Di))),
    ("EI", Keyword::Mnemonic(Mnemonic::Alone(Instr::Ei))),
    (
        "RNZ",
        Keyword::Mnemonic(Mnemonic::Alone(Instr::RetIf(Cond::NotZero))),
    ),
    (
        "RZ",
        Keyword::Mnemonic(Mnemonic::Alone(Instr::RetIf(Cond::Zero))),
    ),
    (
        "RNC",
        Keyword::Mnemonic(Mnemonic::Alone(Instr::RetIf(Cond::NoCarry))),
    ),
    (
        "RC",
        Keyword::Mnemonic(Mnemonic::Alone(Instr::RetIf(Cond::Carry))),
    ),
    (
        "RPO",
        Keyword::Mnemonic(Mnemonic::Alone(Instr::RetIf(Cond::ParityOdd))),
    ),
    (
        "RPE",
        Keyword::Mnemonic(Mnemonic::Alone(Instr::RetIf(Cond::ParityEven))),
    ),
    (
        "RP",
        Keyword::Mnemonic(Mnemonic::Alone(Instr::RetIf(Cond::Plus))),
    ),
    (
        "RM",
        Keyword::Mnemonic(Mnemonic::Alone(Instr::RetIf(Cond::Minus))),
    ),
    ("MOV", Keyword::Mnemonic(Mnemonic::Move)),
    ("MVI", Keyword::Mnemonic(Mnemonic::MoveImmediate)),
    ("LXI", Keyword::Mnemonic(Mnemonic::LoadPair)),
    ("RST", Keyword::Mnemonic(Mnemonic::Restart)),
    (
        "INR",
        Keyword::Mnemonic(Mnemonic::Register(RegisterOperation::Increment)),
    ),
    (
        "DCR",
        Keyword::Mnemonic(Mnemonic::Register(RegisterOperation::Decrement)),
    ),
    (
        "ADD",
        Keyword::Mnemonic(Mnemonic::Register(RegisterOperation::Alu(Operation::Add))),
    ),
    (
        "ADC",
        Keyword::Mnemonic(Mnemonic::Register(RegisterOperation::Alu(Operation::Adc))),
    ),
    (
        "SUB",
        Keyword::Mnemonic(Mnemonic::Register(RegisterOperation::Alu(Operation::Sub))),
    ),
    (
        "SBB",
        Keyword::Mnemonic(Mnemonic::Register(RegisterOperation::Alu(Operation::Sbb))),
    ),
    (
        "ANA",
        Keyword::Mnemonic(Mnemonic::Register(RegisterOperation::Alu(Operation::Ana))),
    ),
    (
        "XRA",
        Keyword::Mnemonic(Mnemonic::Register(RegisterOperation::Alu(Operation::Xra))),
    ),
    (
        "ORA",
        Keyword::Mnemonic(Mnemonic::Register(RegisterOperation::Alu(Operation::Ora))),
    ),
    (
        "CMP",
        Keyword::Mnemonic(Mnemonic::Register(RegisterOperation::Alu(Operation::Cmp))),
    ),
    (
        "ADI",
        Keyword::Mnemonic(Mnemonic::Byte(ByteOperation::AluImmediate(Operation::Add))),
    ),
    (
        "ACI",
        Keyword::Mnemonic(Mnemonic::Byte(ByteOperation::AluImmediate(Operation::Adc))),
    ),
    (
        "SUI",
        Keyword::Mnemonic(Mnemonic::Byte(ByteOperation::AluImmediate(Operation::Sub))),
    ),
    (
        "SBI",
        Keyword::Mnemonic(Mnemonic::Byte(ByteOperation::AluImmediate(Operation::Sbb))),
    ),
    (
        "ANI",
        Keyword::Mnemonic(Mnemonic::Byte(ByteOperation::AluImmediate(Operation::Ana))),
    ),
    (
        "XRI",
        Keyword::Mnemonic(Mnemonic::Byte(ByteOperation::AluImmediate(Operation::Xra))),
    ),
    (
        "ORI",
        Keyword::Mnemonic(Mnemonic::Byte(ByteOperation::AluImmediate(Operation::Ora))),
    ),
    (
        "CPI",
        Keyword::Mnemonic(Mnemonic::Byte(ByteOperation::AluImmediate(Operation::Cmp))),
    ),
    ("OUT", Keyword::Mnemonic(Mnemonic::Byte(ByteOperation::Out))),
    ("IN", Keyword::Mnemonic(Mnemonic::Byte(ByteOperation::In))),
    (
        "SHLD",
        Keyword::Mnemonic(Mnemonic::Word(WordOperation::Shld)),
    ),
    (
        "LHLD",
        Keyword::Mnemonic(Mnemonic::Word(WordOperation::Lhld)),
    ),
    ("STA", Keyword::Mnemonic(Mnemonic::Word(WordOperation::Sta))),
    ("LDA", Keyword::Mnemonic(Mnemonic::Word(WordOperation::Lda))),
    ("JMP", Keyword::Mnemonic(Mnemonic::Word(WordOperation::Jmp))),
    (
        "CALL",
        Keyword::Mnemonic(Mnemonic::Word(WordOperation::Call)),
    ),
    (
        "JNZ",
        Keyword::Mnemonic(Mnemonic::Word(WordOperation::JumpIf(Cond::NotZero))),
    ),
    (
        "JZ",
        Keyword::Mnemonic(Mnemonic::Word(WordOperation::JumpIf(Cond::Zero))),
    ),
    (
        "JNC",
        Keyword::Mnemonic(Mnemonic::Word(WordOperation::JumpIf(Cond::NoCarry))),
    ),
    (
        "JC",
        Keyword::Mnemonic(Mnemonic::Word(WordOperation::JumpIf(Cond::Carry))),
    ),
    (
        "JPO",
        Keyword::Mnemonic(Mnemonic::Word(WordOperation::JumpIf(Cond::ParityOdd))),
    ),
    (
        "JPE",
        Keyword::Mnemonic(Mnemonic::Word(WordOperation::JumpIf(Cond::ParityEven))),
    ),
    (
        "JP",
        Keyword::Mnemonic(Mnemonic::Word(WordOperation::JumpIf(Cond::Plus))),
    ),
    (
        "JM",
        Keyword::Mnemonic(Mnemonic::Word(WordOperation::JumpIf(Cond::Minus))),
    ),
    (
        "CNZ",
        Keyword::Mnemonic(Mnemonic::Word(WordOperation::CallIf(Cond::NotZero))),
    ),
    (
        "CZ",
        Keyword::Mnemonic(Mnemonic::Word(WordOperation::CallIf(Cond::Zero))),
    ),
    (
        "CNC",
        Keyword::Mnemonic(Mnemonic::Word(WordOperation::CallIf(Cond::NoCarry))),
    ),
    (
        "CC",
        Keyword::Mnemonic(Mnemonic::Word(WordOperation::CallIf(Cond::Carry))),
    ),
    (
        "CPO",
        Keyword::Mnemonic(Mnemonic::Word(WordOperation::CallIf(Cond::ParityOdd))),
    ),
    (
        "CPE",
        Keyword::Mnemonic(Mnemonic::Word(WordOperation::CallIf(Cond::ParityEven))),
    ),
    (
        "CP",
        Keyword::Mnemonic(Mnemonic::Word(WordOperation::CallIf(Cond::Plus))),
    ),
    (
        "CM",
        Keyword::Mnemonic(Mnemonic::Word(WordOperation::CallIf(Cond::Minus))),
    ),
    (
        "INX",
        Keyword::Mnemonic(Mnemonic::Pair(PairOperation::Increment)),
    ),
    (
        "DCX",
        Keyword::Mnemonic(Mnemonic::Pair(PairOperation::Decrement)),
    ),
    ("DAD", Keyword::Mnemonic(Mnemonic::Pair(PairOperation::Add))),
    (
        "STAX",
        Keyword::Mnemonic(Mnemonic::Index(IndexOperation::Store)),
    ),
    (
        "LDAX",
        Keyword::Mnemonic(Mnemonic::Index(IndexOperation::Load)),
    ),
    (
        "PUSH",
        Keyword::Mnemonic(Mnemonic::Stack(StackOperation::Push)),
    ),
    (
        "POP",
        Keyword::Mnemonic(Mnemonic::Stack(StackOperation::Pop)),
    ),
    ("ORG", Keyword::Directive(Directive::Origin)),
    ("DB", Keyword::Directive(Directive::Bytes)),
    ("DW", Keyword::Directive(Directive::Words)),
    ("DS", Keyword::Directive(Directive::Space)),
    ("EQU", Keyword::Directive(Directive::Equate)),
    ("SET", Keyword::Directive(Directive::Set)),
    ("IF", Keyword::Directive(Directive::If)),
    ("ELSE", Keyword::Directive(Directive::Else)),
    ("ENDIF", Keyword::Directive(Directive::EndIf)),
    ("END", Keyword::Directive(Directive::End)),
    ("HIGH", Keyword::Prefix(Unary::High)),
    ("LOW", Keyword::Prefix(Unary::Low)),
    ("NOT", Keyword::Prefix(Unary::Not)),
    ("MOD", Keyword::Infix(Binary::Modulo)),
    ("SHL", Keyword::Infix(Binary::ShiftLeft)),
    ("SHR", Keyword::Infix(Binary::ShiftRight)),
    ("EQ", Keyword::Infix(Binary::Equal)),
    ("NE", Keyword::Infix(Binary::NotEqual)),
    ("LT", Keyword::Infix(Binary::Less)),
    ("LE", Keyword::Infix(Binary::LessOrEqual)),
    ("GT", Keyword::Infix(Binary::Greater)),
    ("GE", Keyword::Infix(Binary::GreaterOrEqual)),
    ("AND", Keyword::Infix(Binary::And)),
    ("OR", Keyword::Infix(Binary::Or)),
    ("XOR", Keyword::Infix(Binary::Xor)),
    ("A", Keyword::Register(RegisterWord::A)),
    ("B", Keyword::Register(RegisterWord::B)),
    ("C", Keyword::Register(RegisterWord::C)),
    ("D", Keyword::Register(RegisterWord::D)),
    ("E", Keyword::Register(RegisterWord::E)),
    ("H", Keyword::Register(RegisterWord::H)),
    ("L", Keyword::Register(RegisterWord::L)),
    ("M", Keyword::Register(RegisterWord::M)),
    ("SP", Keyword::Register(RegisterWord::Sp)),
    ("PSW", Keyword::Register(RegisterWord::Psw)),
];

// Whether a word is this text, whatever its case.
fn is_word(word: &[u8], text: &[u8]) -> bool
    ensures { result ≡ bytes_eq (map to_ascii_uppercase word.now) text.now }
{
    let mut found = word;
    let mut wanted = text;
    while !wanted.is_empty() {
        if found.is_empty() || found[0].to_ascii_uppercase() != wanted[0] {
            return false;
        }
        found = found.split_at(1).1;
        wanted = wanted.split_at(1).1;
    }
    found.is_empty()
}

// The meaning of a word in a table, whatever its case.
fn found_in(table: &[(&str, Keyword)], word: &[u8]) -> Option<Keyword>
    ensures { result ≡ lookup (bytes_eq (map to_ascii_uppercase word.now))
        (map (λ e. (e.0.now, e.1)) table.now) }
{
    for (text, keyword) in table {
        if is_word(word, text.as_bytes()) {
            return Some(*keyword);
        }
    }
    None
}

/// The meaning of a word, whatever its case, if it can't be a name.
#[tactic(auto, using(crate::proofs::Tables::keywords_are))]
pub fn keyword_of(word: &[u8]) -> Option<Keyword>
    ensures { result ≡ keyword_of (map to_ascii_uppercase word.now) }
{
    found_in(&KEYWORDS, word)
}
