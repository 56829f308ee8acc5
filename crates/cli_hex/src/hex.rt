//! The bytes of a cell, as Intel HEX or as they are.
ghost use Rattle.std.specs.Prelude.{◌≡◌, ℕ, List, Ok, IfOk, IfErr, length, ◌≤◌};
ghost use Rattle.asm_syntax.specs.Outcome.{Gives};
ghost use Rattle.asm_syntax.specs.Faults.{fault_name};
ghost use Rattle.asm_build.specs.Meaning.{meaning_in};
ghost use Rattle.asm_hex.specs.Cells.{cells_of};
ghost use Rattle.asm_hex.specs.Written.{hex_text};
ghost use Rattle.cli_io.specs.Engine.{AnswersInput, BlamesStreams, IsFailure, IfFailed};
ghost use Rattle.cli_io.specs.Streams.{BlamesReader};
ghost use Rattle.cli_io.specs.TextState.{IsText};
ghost use Rattle.cli_hex.specs.Answer.{IsAnswer, AnswersFor, fault_line};
ghost use Rattle.cli_hex.specs.HexOutput.{memory_output, memory_status, cell_of, cell_output, cell_status};
ghost use Rattle.cli_hex.specs.HexOutput.{hex_output, hex_status};

use crate::answer::{Answer, deliver, fault_answer, refusal, success, text_refusal};
use crate::binary::{binary, com, is_below};
use asm_build::built::Built;
use asm_build::cell::build;
use asm_build::symbols::Symbols;
use asm_hex::memory::cells;
use asm_hex::writing::push_hex;
use asm_syntax::fault::{AsmFault, FaultKind};
use asm_text::statements::{MOST_BYTES, statements};
use base_streams::ports::{Inlet, Outlet};
use cli_io::reading::read_text;
use cli_io::status::Status;
use std::alloc::{AllocError, Global};

/// How the bytes of a cell are written.
#[derive(Clone, Copy, PartialEq, Eq)]
pub enum HexForm {
    /// As Intel HEX, with the start.
    Intel,
    /// As they are, from the lowest address to the highest, 0 where there is none.
    Binary,
    /// The same from 0100H on, for CP/M. A byte below is refused.
    Com,
}

/// Reads a cell of assembler text, assembles it over no symbols, and writes its bytes in this form.
///
/// For input that is refused it writes one line: `bad text` if the input isn't UTF-8, else the line,
/// the column and the name of the cell's first fault; or `below 0100`. Of a text that is too long for a
/// cell it keeps no more than of the longest cell. It writes nothing before all of the input is read.
pub fn run_hex<R: Inlet, W: Outlet>(
    alloc: Global,
    form: HexForm,
    reader: &mut R,
    writer: &mut W,
) -> Status
    ensures answers { AnswersInput (hex_status form) (hex_output form) result (R.state reader.old)
        (W.state writer.old) (W.state writer.new) }
    ensures blame { BlamesStreams result (R.state reader.old) (R.state reader.new)
        (W.state writer.old) (W.state writer.new) }
{
    match hex_answer(alloc, form, reader) {
        Ok(answer) => deliver(writer, &answer),
        Err(failure) => failure,
    }
}

fn hex_answer<R: Inlet>(alloc: Global, form: HexForm, reader: &mut R) -> Result<Answer, Status>
    ensures answer { AnswersFor (hex_status form) (hex_output form) result (R.state reader.old) }
    ensures failure { IfErr result IsFailure }
    ensures blame { BlamesReader IfFailed result (R.state reader.old) (R.state reader.new) }
{
    match read_text(alloc, MOST_BYTES, reader) {
        Ok(text) => text_answer(alloc, form, text).map_err(|_| Status::OutOfMemory),
        Err(fault) => text_refusal(alloc, fault),
    }
}

/// The answer to a text, or to one that is too long for a cell and wasn't kept.
fn text_answer(alloc: Global, form: HexForm, text: Option<String>) -> Result<Answer, AllocError>
    ensures { IfOk result (λ a. (input : List ℕ) → IsText MOST_BYTES (Ok text) input
        → IsAnswer a (hex_status form input) (hex_output form input)) }
{
    match text {
        Some(text) => cell_answer(alloc, form, text.as_str()),
        None => long_answer(alloc),
    }
}

/// The answer to a text that is too long for a cell.
fn long_answer(alloc: Global) -> Result<Answer, AllocError>
    ensures { IfOk result (λ a.
        IsAnswer a Status.Refused (fault_line 1 1 (fault_name FaultKind.TooLong))) }
{
    fault_answer(alloc, 1, 1, FaultKind::TooLong.name())
}

/// The answer to a cell: its bytes, or its first fault.
fn cell_answer(alloc: Global, form: HexForm, text: &str) -> Result<Answer, AllocError>
    ensures { IfOk result (λ a.
        IsAnswer a (cell_status form (cell_of text.now)) (cell_output form (cell_of text.now))) }
{
    match assemble(alloc, text) {
        Ok(built) => built_answer(alloc, form, &built.image, built.start),
        Err(AsmFault::At { line, column, kind }) => {
            fault_answer(alloc, line, column, kind.name())
        }
        Err(AsmFault::OutOfMemory) => Err(AllocError),
    }
}

/// Assembles a cell over no symbols.
fn assemble(alloc: Global, text: &str) -> Result<Built, AsmFault>
    ensures { Gives meaning_in result (cell_of text.now) }
{
    let statements = statements(alloc, text)?;
    build(alloc, &statements, &Symbols::new(alloc))
}

/// The bytes of an image in a form.
fn built_answer(
    alloc: Global,
    form: HexForm,
    image: &[(u16, u8)],
    start: Option<u16>,
) -> Result<Answer, AllocError>
    ensures { IfOk result (λ a. IsAnswer a
        (memory_status form (cells_of image.now)) (memory_output form (cells_of image.now) start)) }
{
    let cells = cells(alloc, image)?;
    match form {
        HexForm::Intel => Ok(success(intel(alloc, &cells, start)?)),
        HexForm::Binary => Ok(success(binary(alloc, &cells)?)),
        HexForm::Com if is_below(&cells) => refusal(alloc, "below 0100\n"),
        HexForm::Com => Ok(success(com(alloc, &cells)?)),
    }
}

fn intel(alloc: Global, cells: &[Option<u8>], start: Option<u16>) -> Result<Vec<u8>, AllocError>
    requires { length cells.now ≤ 65536 }
    ensures { IfOk result (λ bytes. bytes.items ≡ hex_text cells.now start) }
{
    let mut text = String::new(alloc);
    push_hex(&mut text, cells, start)?;
    Ok(text.into_bytes())
}
