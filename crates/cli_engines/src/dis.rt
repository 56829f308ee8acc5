//! The word `dis`: the listing of bytes.
ghost use Rattle.std.specs.Prelude.{IfOk, IfErr};
ghost use Rattle.cli_io.specs.Engine.{AnswersInput, BlamesStreams, IsFailure, IfFailed};
ghost use Rattle.cli_io.specs.Report.{IsReport, ReportsInput};
ghost use Rattle.cli_io.specs.Streams.{BlamesReader};
ghost use Rattle.cli_engines.specs.DisText.{listed_text, listed_status, dis_text, dis_status};

use base_streams::ports::{Inlet, Outlet};
use cli_io::reading::read_hex;
use cli_io::report::{Report, deliver, hex_refusal, refusal};
use cli_io::status::Status;
use i80_base::memory::MEMORY_SIZE;
use i80_dis::listing::listing;
use std::alloc::{AllocError, Global};

/// Reads bytes as hexadecimal text and writes their listing, the first of which is at this address.
/// For input that is refused it writes one line. It writes nothing before all of the text is read.
pub fn run_dis<R: Inlet, W: Outlet>(
    alloc: Global,
    origin: u16,
    reader: &mut R,
    writer: &mut W,
) -> Status
    ensures answers { AnswersInput (dis_status origin) (dis_text origin) result (R.state reader.old)
        (W.state writer.old) (W.state writer.new) }
    ensures blame { BlamesStreams result (R.state reader.old) (R.state reader.new)
        (W.state writer.old) (W.state writer.new) }
{
    match dis_report(alloc, origin, reader) {
        Ok(report) => deliver(writer, &report),
        Err(failure) => failure,
    }
}

fn dis_report<R: Inlet>(alloc: Global, origin: u16, reader: &mut R) -> Result<Report, Status>
    ensures report { ReportsInput (dis_status origin) (dis_text origin) result (R.state reader.old) }
    ensures failure { IfErr result IsFailure }
    ensures blame { BlamesReader IfFailed result (R.state reader.old) (R.state reader.new) }
{
    match read_hex(alloc, reader) {
        Ok(bytes) => listed_report(alloc, origin, &bytes).map_err(|_| Status::OutOfMemory),
        Err(fault) => hex_refusal(alloc, fault),
    }
}

/// The report of bytes, the first of which is at this address.
fn listed_report(alloc: Global, origin: u16, bytes: &[u8]) -> Result<Report, AllocError>
    ensures { IfOk result (λ report. IsReport report
        (listed_status origin bytes.now) (listed_text origin bytes.now)) }
{
    if usize::from(origin) + bytes.len() > MEMORY_SIZE {
        return refusal(alloc, "past end\n");
    }
    let text = listing(alloc, origin, bytes)?;
    Ok(Report {
        is_refused: false,
        text,
    })
}
