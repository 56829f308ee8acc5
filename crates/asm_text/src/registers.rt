//! The registers and pairs that operands name.
ghost use Rattle.std.specs.Prelude.{◌≡◌, Option};
ghost use Rattle.asm_syntax.specs.Lexemes.{pieces_of};
ghost use Rattle.asm_syntax.specs.Outcome.{LineGives};
ghost use Rattle.asm_syntax.specs.declared.keyword.RegisterWord.{RegisterWord};
ghost use Rattle.asm_text.specs.Registers.{reg_of, register_of, pair_of, index_of, stack_of};
ghost use Rattle.asm_text.specs.Forms.{fitting, named_by};

use asm_lex::commas::register;
use asm_syntax::fault::{FaultKind, LineFault};
use asm_syntax::keyword::RegisterWord;
use asm_syntax::token::Placed;
use i80_base::instruction::{IndexPair, Pair, Reg, Register, StackPair};

/// What a word can name for an operation that takes certain registers or pairs.
pub trait Named: Copy {
    ghost meaning: { RegisterWord → Option Self };

    /// What the word names, if it is one of these.
    fn from_word(word: RegisterWord) -> Option<Self>
        ensures { result ≡ meaning word };
}

// A register or M.
impl Named for Reg {
    ghost meaning = { reg_of };

    fn from_word(word: RegisterWord) -> Option<Reg> {
        match word {
            RegisterWord::A => Some(Reg::A),
            RegisterWord::B => Some(Reg::B),
            RegisterWord::C => Some(Reg::C),
            RegisterWord::D => Some(Reg::D),
            RegisterWord::E => Some(Reg::E),
            RegisterWord::H => Some(Reg::H),
            RegisterWord::L => Some(Reg::L),
            RegisterWord::M => Some(Reg::M),
            RegisterWord::Sp | RegisterWord::Psw => None,
        }
    }
}

// A pair, named by its first register, or SP.
impl Named for Pair {
    ghost meaning = { pair_of };

    fn from_word(word: RegisterWord) -> Option<Pair> {
        match word {
            RegisterWord::B => Some(Pair::B),
            RegisterWord::D => Some(Pair::D),
            RegisterWord::H => Some(Pair::H),
            RegisterWord::Sp => Some(Pair::Sp),
            _ => None,
        }
    }
}

// A pair that holds an address.
impl Named for IndexPair {
    ghost meaning = { index_of };

    fn from_word(word: RegisterWord) -> Option<IndexPair> {
        match word {
            RegisterWord::B => Some(IndexPair::B),
            RegisterWord::D => Some(IndexPair::D),
            _ => None,
        }
    }
}

// A pair, named by its first register, or PSW.
impl Named for StackPair {
    ghost meaning = { stack_of };

    fn from_word(word: RegisterWord) -> Option<StackPair> {
        match word {
            RegisterWord::B => Some(StackPair::B),
            RegisterWord::D => Some(StackPair::D),
            RegisterWord::H => Some(StackPair::H),
            RegisterWord::Psw => Some(StackPair::Psw),
            _ => None,
        }
    }
}

/// The register, unless it is M.
pub fn register_of(reg: Reg) -> Option<Register>
    ensures { result ≡ register_of reg }
{
    match reg {
        Reg::A => Some(Register::A),
        Reg::B => Some(Register::B),
        Reg::C => Some(Register::C),
        Reg::D => Some(Register::D),
        Reg::E => Some(Register::E),
        Reg::H => Some(Register::H),
        Reg::L => Some(Register::L),
        Reg::M => None,
    }
}

/// The value, or `Operands` at the column of the operation.
pub fn fit<T>(column: usize, found: Option<T>) -> Result<T, LineFault>
    ensures { LineGives (λ x. x) result (fitting column found) }
{
    match found {
        Some(value) => Ok(value),
        None => Err(LineFault::At {
            column,
            kind: FaultKind::Operands,
        }),
    }
}

/// What the operand names.
pub fn named_operand<T: Named>(column: usize, operand: &[Placed]) -> Result<T, LineFault>
    ensures { LineGives (λ x. x) result (named_by column T.meaning (pieces_of operand.now)) }
{
    let named = match register(operand) {
        Some(word) => T::from_word(word),
        None => None,
    };
    fit(column, named)
}
