//! The listing of a file in Intel HEX.
ghost use Rattle.std.specs.Prelude.{ℕ, List, Ok, IfOk, IfErr};
ghost use Rattle.asm_hex.specs.Contents.{hex_of};
ghost use Rattle.asm_hex.specs.Faults.{fault_name};
ghost use Rattle.asm_hex.specs.File.{file_value};
ghost use Rattle.cli_io.specs.Engine.{AnswersInput, BlamesStreams, IsFailure, IfFailed};
ghost use Rattle.cli_io.specs.Streams.{BlamesReader};
ghost use Rattle.cli_io.specs.TextState.{IsText};
ghost use Rattle.cli_hex.specs.Answer.{IsAnswer, AnswersFor, fault_line};
ghost use Rattle.cli_hex.specs.ListOutput.{file_output, file_status, list_output, list_status};

use crate::answer::{Answer, deliver, fault_answer, success, text_refusal};
use asm_hex::fault::{HexFault, HexFaultKind};
use asm_hex::memory::cells;
use asm_hex::reading::{HexFile, MOST_BYTES, read_hex};
use base_streams::ports::{Inlet, Outlet};
use cli_io::reading::read_text;
use cli_io::status::Status;
use i80_listings::listings::listings;
use std::alloc::{AllocError, Global};

/// Reads a file in Intel HEX and writes its listing, a cell that assembles to its bytes and its start.
/// There is one exception: with a start, the listing of a memory without two gaps next to each other may
/// have one line more than a cell may have.
///
/// For input that is refused it writes one line: `bad text` if the input isn't UTF-8, else the line of
/// the first fault, the column 1, and the name of the fault. It writes nothing before all of the input is
/// read.
pub fn run_hex_list<R: Inlet, W: Outlet>(alloc: Global, reader: &mut R, writer: &mut W) -> Status
    ensures answers { AnswersInput list_status list_output result (R.state reader.old)
        (W.state writer.old) (W.state writer.new) }
    ensures blame { BlamesStreams result (R.state reader.old) (R.state reader.new)
        (W.state writer.old) (W.state writer.new) }
{
    match list_answer(alloc, reader) {
        Ok(answer) => deliver(writer, &answer),
        Err(failure) => failure,
    }
}

fn list_answer<R: Inlet>(alloc: Global, reader: &mut R) -> Result<Answer, Status>
    ensures answer { AnswersFor list_status list_output result (R.state reader.old) }
    ensures failure { IfErr result IsFailure }
    ensures blame { BlamesReader IfFailed result (R.state reader.old) (R.state reader.new) }
{
    match read_text(alloc, MOST_BYTES, reader) {
        Ok(text) => text_answer(alloc, text).map_err(|_| Status::OutOfMemory),
        Err(fault) => text_refusal(alloc, fault),
    }
}

/// The answer to a text, or to one that is too long and wasn't kept.
fn text_answer(alloc: Global, text: Option<String>) -> Result<Answer, AllocError>
    ensures { IfOk result (λ a. (input : List ℕ) → IsText MOST_BYTES (Ok text) input
        → IsAnswer a (list_status input) (list_output input)) }
{
    match text {
        Some(text) => file_answer(alloc, text.as_str()),
        None => long_answer(alloc),
    }
}

/// The answer to a text that is too long.
fn long_answer(alloc: Global) -> Result<Answer, AllocError>
    ensures { IfOk result (λ a.
        IsAnswer a Status.Refused (fault_line 1 1 (fault_name HexFaultKind.TooLong))) }
{
    fault_answer(alloc, 1, 1, HexFaultKind::TooLong.name())
}

/// The answer to a file: its listing, or its first fault.
fn file_answer(alloc: Global, text: &str) -> Result<Answer, AllocError>
    ensures { IfOk result (λ a.
        IsAnswer a (file_status (hex_of text.now)) (file_output (hex_of text.now))) }
{
    match read_hex(alloc, text.as_bytes()) {
        Ok(file) => listing_answer(alloc, &file),
        Err(HexFault::At { line, kind }) => fault_answer(alloc, line, 1, kind.name()),
        Err(HexFault::OutOfMemory) => Err(AllocError),
    }
}

fn listing_answer(alloc: Global, file: &HexFile) -> Result<Answer, AllocError>
    ensures { IfOk result (λ a.
        IsAnswer a (file_status (Ok (file_value file.now))) (file_output (Ok (file_value file.now)))) }
{
    let cells = cells(alloc, &file.bytes)?;
    let text = listings(alloc, &cells, file.start)?;
    Ok(success(text.into_bytes()))
}
