//! Memory as lines of disassembly.
ghost use Rattle.std.specs.Prelude.{◌≡◌, IfOk, Some, string_bytes};
ghost use Rattle.lab_image.specs.Loads.{origin_of};
ghost use Rattle.lab_views.specs.Code as code;
ghost use Rattle.lab_views.specs.Frames as frames;
ghost use Rattle.lab_core.specs.Board.{Board};
ghost use Rattle.lab_core.specs.Labs.{RepresentsBoard};
ghost use Rattle.dap_disassembly.specs.Disassembly as shown;

use asm_build::symbols::Symbols;
use base_text::sequence::{Bytes, Sequence};
use base_text::text::Text;
use dap_messages::message::{EditorInstruction, InstructionLine, OperandStyle};
use i80_dis::line::line_at;
use lab_core::lab::Lab;
use lab_shown::shown::CodeLine;
use lab_views::names::label_of;
use lab_views::texts::word_text;
use std::alloc::{AllocError, Global};

// ---- operands

/// The word at the end of an instruction of three bytes.
fn operand_of(bytes: &[u8]) -> Option<u16>
    ensures { result ≡ shown.operand_of bytes.now }
{
    match bytes {
        [_, low, high] => Some(u16::from(*low) + 256 * u16::from(*high)),
        _ => None,
    }
}

/// A text with a name for the word at its end.
fn with_name(alloc: Global, text: &str, word: u16, name: &str) -> Result<Text, AllocError>
    requires { shown.EndsWith (Some word) text.now }
    ensures { IfOk result (λ named. named ≡ shown.with_name text.now word (Some name.now)) }
{
    let numeral = word_text(alloc, word)?;
    let Some(front) = text.strip_suffix(numeral.as_str()) else {
        unreachable!();
    };
    let mut named = String::from_str(alloc, front)?;
    named.push_str(name)?;
    Ok(Text::from(named))
}

fn with_label(
    alloc: Global,
    symbols: &Symbols,
    operand: Option<u16>,
    text: String,
) -> Result<Text, AllocError>
    requires { shown.EndsWith operand (string_bytes text) }
    ensures { IfOk result (λ named. named ≡ shown.with_label symbols.now operand (string_bytes text)) }
{
    let Some(word) = operand else {
        return Ok(Text::from(text));
    };
    match label_of(symbols, word) {
        Some(name) => with_name(alloc, text.as_str(), word, name),
        None => Ok(Text::from(text)),
    }
}

/// The text of these bytes with its operand in a style.
fn operand_shown(
    alloc: Global,
    operands: OperandStyle,
    symbols: &Symbols,
    bytes: &[u8],
    text: String,
) -> Result<Text, AllocError>
    requires { shown.EndsWith (shown.operand_of bytes.now) (string_bytes text) }
    ensures { IfOk result (λ named. named
        ≡ shown.operand_shown operands symbols.now bytes.now (string_bytes text)) }
{
    match operands {
        OperandStyle::Numbers => Ok(Text::from(text)),
        OperandStyle::Labels => with_label(alloc, symbols, operand_of(bytes), text),
    }
}

// ---- lines

/// The three bytes from an address on, which is the longest instruction's length.
fn bytes_at(lab: &Lab, address: u16) -> [u8; 3]
    ensures { (b : Board) → RepresentsBoard lab.now b → result ≡ code.bytes_at b.machine address }
{
    [
        lab.peek(address),
        lab.peek(address.wrapping_add(1)),
        lab.peek(address.wrapping_add(2)),
    ]
}

fn code_line(
    alloc: Global,
    lab: &Lab,
    address: u16,
    operands: OperandStyle,
) -> Result<CodeLine, AllocError>
    ensures { (b : Board) → RepresentsBoard lab.now b
        → IfOk result (λ line. line ≡ shown.code_shown b operands (code.line_at b.machine address)) }
{
    let all = bytes_at(lab, address);
    let line = line_at(alloc, &all, address)?;
    let mut bytes = Bytes::copy_of(alloc, &all)?;
    bytes.truncate(usize::from(line.length));
    let text = operand_shown(alloc, operands, lab.symbols(), bytes.as_slice(), line.text)?;
    Ok(CodeLine {
        address,
        bytes,
        text,
    })
}

fn label_at(alloc: Global, symbols: &Symbols, address: u16) -> Result<Option<Text>, AllocError>
    ensures { IfOk result (λ name. name ≡ frames.label_of symbols.now address) }
{
    match label_of(symbols, address) {
        Some(name) => {
            let name = Text::copy_of(alloc, name)?;
            Ok(Some(name))
        }
        None => Ok(None),
    }
}

/// The line of the text with this path that the byte at an address was loaded from.
fn line_of(
    alloc: Global,
    lab: &Lab,
    path: &str,
    address: u16,
) -> Result<Option<InstructionLine>, AllocError>
    ensures { (b : Board) → RepresentsBoard lab.now b
        → IfOk result (λ line. line ≡ shown.line_in path.now (origin_of b.loads address)) }
{
    match lab.origin_at(address) {
        Some(origin) => {
            let path = Text::copy_of(alloc, path)?;
            let line = origin.line;
            Ok(Some(InstructionLine { path, line }))
        }
        None => Ok(None),
    }
}

fn instruction(
    alloc: Global,
    lab: &Lab,
    path: &str,
    address: u16,
    operands: OperandStyle,
) -> Result<EditorInstruction, AllocError>
    ensures { (b : Board) → RepresentsBoard lab.now b → IfOk result
        (λ line. line ≡ shown.line_shown b path.now operands (code.line_at b.machine address)) }
{
    let code = code_line(alloc, lab, address, operands)?;
    let symbol = label_at(alloc, lab.symbols(), address)?;
    let origin = line_of(alloc, lab, path, address)?;
    Ok(EditorInstruction {
        code,
        symbol,
        origin,
    })
}

/// `count` lines from an address on, like those of the code view, which shows at most 256. Addresses wrap.
///
/// Each has the first label at its address, and the line that the byte there was loaded from, of the
/// program's text, which has this path. In the style `Labels`, the word at the end of an instruction of three
/// bytes is written as the first label with that value, if there is one; a name of an EQU or a SET is no
/// label.
pub fn instructions(
    alloc: Global,
    lab: &Lab,
    path: &str,
    address: u16,
    count: u16,
    operands: OperandStyle,
) -> Result<Sequence<EditorInstruction>, AllocError>
    ensures { (b : Board) → RepresentsBoard lab.now b
        → IfOk result (λ list. list ≡ shown.instructions_from b path.now operands address count) }
{
    let mut next = address;
    let mut lines = Sequence::new(alloc);
    for _ in 0..count {
        let line = instruction(alloc, lab, path, next, operands)?;
        lines.push(line)?;
        next = lab.after_instructions(next, 1);
    }
    Ok(lines)
}
