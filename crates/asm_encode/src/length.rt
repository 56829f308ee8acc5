//! How many bytes operations have.
ghost use Rattle.std.specs.Prelude.{◌≡◌, min, sum, map};
ghost use Rattle.asm_encode.specs.Lengths.{length_of, length_of_instruction, length_of_datum};

use asm_syntax::statement::{Action, Data, Instruction};

fn length_of_instruction(instruction: &Instruction) -> usize
    ensures { result ≡ length_of_instruction instruction.now }
{
    match instruction {
        Instruction::Alone(_) => 1,
        Instruction::Byte(_, _) => 2,
        Instruction::Word(_, _) => 3,
        Instruction::Restart(_) => 1,
    }
}

fn length_of_datum(datum: &Data) -> usize
    ensures { result ≡ length_of_datum datum.now }
{
    match datum {
        Data::Text(text) => text.as_slice().len(),
        Data::Byte(_) => 1,
    }
}

fn length_of_data(items: &[Data]) -> usize
    ensures { result ≡ min (sum (map length_of_datum items.now)) usize.MAX }
{
    let mut length: usize = 0;
    for datum in items {
        length = length.saturating_add(length_of_datum(datum));
    }
    length
}

/// The number of bytes that an action fills or, for DS, skips, where `value` is the operand of DS.
/// It is at most `usize::MAX`, which is more than memory has.
pub fn length_of(action: &Action, value: u16) -> usize
    ensures { result ≡ min (length_of action.now value) usize.MAX }
{
    match action {
        Action::Instruction(instruction) => length_of_instruction(instruction),
        Action::Bytes(data) => length_of_data(data.as_slice()),
        Action::Words(operands) => operands.as_slice().len().saturating_mul(2),
        Action::Space(_) => value as usize,
        _ => 0,
    }
}
