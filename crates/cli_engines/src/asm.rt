//! The word `asm`: the image of a cell, and how the program in it ends.
ghost use Rattle.std.specs.Prelude.{◌≡◌, ◌++◌, List, ℕ, Ok, OnOk, IfOk, IfErr, Some, string_bytes};
ghost use Rattle.asm_syntax.specs.Outcome.{Gives};
ghost use Rattle.asm_build.specs.Meaning.{meaning_in};
ghost use Rattle.cli_io.specs.Engine.{AnswersInput, BlamesStreams, IsFailure, IfFailed};
ghost use Rattle.cli_io.specs.Report.{IsReport, ReportsInput};
ghost use Rattle.cli_io.specs.Streams.{BlamesReader};
ghost use Rattle.cli_io.specs.TextState.{IsText};
ghost use Rattle.asm_syntax.specs.Faults.{fault_name};
ghost use Rattle.cli_engines.specs.AsmText.{start_text, built_text, begun_at, fault_line, cell_of};
ghost use Rattle.cli_engines.specs.AsmText.{cell_text, cell_status, asm_text, asm_status};
ghost use Rattle.cli_run.specs.Runner.{RepresentsComputer};

use crate::image::{push_image, store_image};
use asm_build::built::Built;
use asm_build::cell::build;
use asm_build::symbols::Symbols;
use asm_syntax::fault::{AsmFault, FaultKind};
use asm_text::statements::{MOST_BYTES, statements};
use base_streams::ports::{Inlet, Outlet};
use base_text::hexadecimal::push_word;
use cli_io::reading::read_text;
use cli_io::report::{Report, deliver, text_refusal};
use cli_io::status::Status;
use cli_run::runner::Runner;
use i80_exec::machine::Machine;
use std::alloc::{AllocError, Global};

/// The most steps of a run.
pub const RUN_LIMIT: u64 = 100_000;

/// Reads a cell of assembler text, assembles it over no symbols, and writes its bytes in the order of
/// addresses; if the cell has a start, also how the program ends on a machine after power-on with
/// those bytes.
///
/// For input that is refused it writes one line: `bad text` if the input isn't UTF-8, else the line,
/// the column and the name of the cell's first fault. Of a text that is too long for a cell it keeps
/// no more than of the longest cell. It writes nothing before all of the input is read.
pub fn run_asm<R: Inlet, W: Outlet>(alloc: Global, reader: &mut R, writer: &mut W) -> Status
    ensures answers { AnswersInput asm_status asm_text result (R.state reader.old)
        (W.state writer.old) (W.state writer.new) }
    ensures blame { BlamesStreams result (R.state reader.old) (R.state reader.new)
        (W.state writer.old) (W.state writer.new) }
{
    match asm_report(alloc, reader) {
        Ok(report) => deliver(writer, &report),
        Err(failure) => failure,
    }
}

fn asm_report<R: Inlet>(alloc: Global, reader: &mut R) -> Result<Report, Status>
    ensures report { ReportsInput asm_status asm_text result (R.state reader.old) }
    ensures failure { IfErr result IsFailure }
    ensures blame { BlamesReader IfFailed result (R.state reader.old) (R.state reader.new) }
{
    match read_text(alloc, MOST_BYTES, reader) {
        Ok(text) => text_report(alloc, text).map_err(|_| Status::OutOfMemory),
        Err(fault) => text_refusal(alloc, fault),
    }
}

/// The report of a text, or of one that is too long for a cell and wasn't kept.
fn text_report(alloc: Global, text: Option<String>) -> Result<Report, AllocError>
    ensures { IfOk result (λ report. (input : List ℕ) → IsText MOST_BYTES (Ok text) input
        → IsReport report (asm_status input) (asm_text input)) }
{
    match text {
        Some(text) => cell_report(alloc, text.as_str()),
        None => long_report(alloc),
    }
}

/// The report of a text that is too long for a cell.
fn long_report(alloc: Global) -> Result<Report, AllocError>
    ensures { IfOk result (λ report.
        IsReport report Status.Refused (fault_line 1 1 (fault_name FaultKind.TooLong))) }
{
    fault_report(alloc, 1, 1, FaultKind::TooLong.name())
}

/// The report of what a cell gives, or of its first fault.
fn cell_report(alloc: Global, text: &str) -> Result<Report, AllocError>
    ensures { IfOk result (λ report.
        IsReport report (cell_status (cell_of text.now)) (cell_text (cell_of text.now))) }
{
    match assemble(alloc, text) {
        Ok(built) => built_report(alloc, &built.image, built.start),
        Err(AsmFault::At { line, column, kind }) => {
            fault_report(alloc, line, column, kind.name())
        }
        Err(AsmFault::OutOfMemory) => Err(AllocError),
    }
}

/// Assembles a cell over no symbols.
fn assemble(alloc: Global, text: &str) -> Result<Built, AsmFault>
    ensures { Gives meaning_in result (cell_of text.now) }
{
    let statements = statements(alloc, text)?;
    build(alloc, &statements, &Symbols::new(alloc))
}

/// The report of an assembled cell: the image and, if it has a start, how a run of it ends.
fn built_report(
    alloc: Global,
    image: &[(u16, u8)],
    start: Option<u16>,
) -> Result<Report, AllocError>
    ensures { IfOk result (λ report.
        IsReport report Status.Success (built_text image.now start)) }
{
    let mut text = String::new(alloc);
    push_image(alloc, &mut text, image)?;
    if let Some(address) = start {
        push_start(alloc, &mut text, image, address)?;
    }
    Ok(Report {
        is_refused: false,
        text,
    })
}

/// Appends the start of the program, and how a run of it ends.
fn push_start(
    alloc: Global,
    text: &mut String,
    image: &[(u16, u8)],
    address: u16,
) -> Result<(), AllocError>
    ensures { OnOk result (string_bytes text.new
        ≡ string_bytes text.old ++ start_text image.now (Some address)) }
{
    text.push_str("start ")?;
    push_word(text, address)?;
    text.push_str("\n")?;
    let mut runner = begun_at(alloc, image, address)?;
    runner.print_end(RUN_LIMIT, text)?;
    Ok(())
}

/// A machine after power-on with the image in its memory, about to begin at an address.
fn begun_at(alloc: Global, image: &[(u16, u8)], address: u16) -> Result<Runner, AllocError>
    ensures { IfOk result (λ runner. RepresentsComputer runner (begun_at address image.now)) }
{
    let mut machine = Machine::new(alloc)?;
    store_image(&mut machine, image);
    machine.set_pc(address);
    Ok(Runner::new(alloc, machine))
}

/// The report that something is wrong at a line and a column, both counted from 1.
fn fault_report(alloc: Global, line: usize, column: usize, name: &str) -> Result<Report, AllocError>
    ensures { IfOk result (λ report.
        IsReport report Status.Refused (fault_line line column name.now)) }
{
    let mut text = String::new(alloc);
    write!(text, "{line}:{column} {name}\n")?;
    Ok(Report {
        is_refused: true,
        text,
    })
}
