//! Reading an instruction from bytes, by the table of 256 rows and the board's list of aliases.
ghost use Rattle.std.specs.Prelude.{◌≡◌, take, IfOk};
ghost use Rattle.i80_base.specs.Rows.{Byte, Word, first_instruction, read_row};
ghost use Rattle.i80_base.specs.AliasRows.{read_on};
ghost use Rattle.i80_base.specs.Instructions.{byte_instruction, word_instruction};
ghost use Rattle.i80_rows.specs.Encoding.{Encodes, ReadsEncoded};

mod rows;

use crate::decoding::rows::{Row, board_row_at};
use i80_base::board::Board;
use i80_base::instruction::{ByteOperation, DecodeFault, Instr, WordOperation};

/// The instruction that the bytes begin with, and its length of 1 to 3 bytes.
pub fn decode(bytes: &[u8]) -> Result<(Instr, u8), DecodeFault>
    // The instruction is what that many bytes at the front encode, and what is encoded there is returned.
    ensures found { IfOk result (λ p. Encodes p.0 (take p.1 bytes.now)) }
    ensures only { ReadsEncoded bytes.now result }
    // The opcode table gives the result, and the error for undefined opcodes and missing operands.
    ensures table { result ≡ first_instruction bytes.now }
{
    decode_on(bytes, Board::Strict)
}

/// The instruction that the bytes begin with on a board. With `Board::Aliases` none of the 256 opcodes is
/// undefined: the twelve are further encodings of NOP, JMP, RET and CALL, which `encode` never writes.
pub fn decode_on(bytes: &[u8], board: Board) -> Result<(Instr, u8), DecodeFault>
    ensures table { result ≡ read_on board bytes.now }
    // On a strict board it is what `decode` returns.
    ensures strict { board ≡ Board.Strict → result ≡ first_instruction bytes.now }
{
    read_instruction(bytes, board)
}

fn read_instruction(bytes: &[u8], board: Board) -> Result<(Instr, u8), DecodeFault>
    ensures { result ≡ read_on board bytes.now }
{
    let [opcode, rest @ ..] = bytes else {
        return Err(DecodeFault::Short { needed: 1 });
    };
    match board_row_at(*opcode, board) {
        Row::Undefined => Err(DecodeFault::Undefined),
        Row::Alone(instr) => Ok((instr, 1)),
        Row::Byte(operation) => read_byte(operation, rest),
        Row::Word(operation) => read_word(operation, rest),
    }
}

fn read_byte(operation: ByteOperation, rest: &[u8]) -> Result<(Instr, u8), DecodeFault>
    ensures { result ≡ read_row (Byte (byte_instruction operation)) rest.now }
{
    match rest {
        [byte, ..] => Ok((operation.instruction(*byte), 2)),
        _ => Err(DecodeFault::Short { needed: 2 }),
    }
}

fn read_word(operation: WordOperation, rest: &[u8]) -> Result<(Instr, u8), DecodeFault>
    ensures { result ≡ read_row (Word (word_instruction operation)) rest.now }
{
    match rest {
        [low, high, ..] => Ok((operation.instruction(u16::from_le_bytes([*low, *high])), 3)),
        _ => Err(DecodeFault::Short { needed: 3 }),
    }
}
