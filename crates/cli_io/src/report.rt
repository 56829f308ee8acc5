//! What an engine reports, and how it is written.
ghost use Rattle.std.specs.Prelude.{◌≡◌, ◌⊎◌, IfOk, IfErr, string_bytes};
ghost use Rattle.std.specs.Io.KnownBytes.{Keeps};
ghost use Rattle.cli_io.specs.Engine.{WritesAnswer, answer_status, BlamesWriter};
ghost use Rattle.cli_io.specs.Report.{IsReport, Refuses, RefusesText, IsToldBy, IsToldByText};

use crate::reading::{HexFault, TextFault};
use crate::status::Status;
use base_streams::ports::Outlet;
use base_streams::writing::write_all;
use std::alloc::{AllocError, Global};
use std::io::Write;

/// A text, and whether it says that the input is refused.
#[derive(Drop)]
pub struct Report {
    pub is_refused: bool,
    pub text: String,
}

/// The report that the input is refused, with this line.
pub fn refusal(alloc: Global, line: &str) -> Result<Report, AllocError>
    ensures { IfOk result (λ report. IsReport report Status.Refused line.now) }
{
    let text = String::from_str(alloc, line)?;
    Ok(Report {
        is_refused: true,
        text,
    })
}

/// The report that hexadecimal input is refused; or the status, if nothing is to be written.
pub fn hex_refusal(alloc: Global, fault: HexFault) -> Result<Report, Status>
    ensures report { IfOk result (Refuses fault) }
    ensures failure { IfErr result (IsToldBy fault) }
{
    match fault {
        HexFault::BadHex => refusal(alloc, "bad hex\n").map_err(|_| Status::OutOfMemory),
        HexFault::PastEnd => refusal(alloc, "past end\n").map_err(|_| Status::OutOfMemory),
        HexFault::OutOfMemory => Err(Status::OutOfMemory),
        HexFault::Read => Err(Status::Failed),
    }
}

/// The report that text is refused; or the status, if nothing is to be written.
pub fn text_refusal(alloc: Global, fault: TextFault) -> Result<Report, Status>
    ensures report { IfOk result (RefusesText fault) }
    ensures failure { IfErr result (IsToldByText fault) }
{
    match fault {
        TextFault::BadText => refusal(alloc, "bad text\n").map_err(|_| Status::OutOfMemory),
        TextFault::OutOfMemory => Err(Status::OutOfMemory),
        TextFault::Read => Err(Status::Failed),
    }
}

/// Writes the report's text and returns its status, or `Failed` if a write failed.
pub fn deliver<W: Outlet>(writer: &mut W, report: &Report) -> Status
    ensures answers { WritesAnswer (answer_status report.now.is_refused) (string_bytes report.now.text) result
        (W.state writer.old) (W.state writer.new) }
    ensures blame { BlamesWriter result (W.state writer.old) (W.state writer.new) }
{
    if write_all(writer, report.text.as_bytes()).is_err() {
        return Status::Failed;
    }
    if report.is_refused {
        Status::Refused
    } else {
        Status::Success
    }
}

/// Flushes the writer and returns the status, or `Failed` if that failed.
pub fn flush_report<W: Write>(status: Status, writer: &mut W) -> Status
    ensures status { (result ≡ status) ⊎ (result ≡ Status.Failed) }
    ensures kept { Keeps (W.contents writer.old) (W.contents writer.new) }
{
    match writer.flush() {
        Ok(()) => status,
        Err(_) => Status::Failed,
    }
}
