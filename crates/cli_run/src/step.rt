//! The word `step`: what each instruction of a program does.
ghost use Rattle.std.specs.Prelude.{IfOk, IfErr};
ghost use Rattle.cli_io.specs.Engine.{AnswersInput, BlamesStreams, IsFailure, IfFailed};
ghost use Rattle.cli_io.specs.Report.{IsReport, ReportsInput};
ghost use Rattle.cli_io.specs.Streams.{BlamesReader};
ghost use Rattle.cli_run.specs.StepText.{program_text, step_text, step_status};

use crate::runner::{Runner, load};
use base_streams::ports::{Inlet, Outlet};
use cli_io::reading::read_hex;
use cli_io::report::{Report, deliver, hex_refusal};
use cli_io::status::Status;
use std::alloc::{AllocError, Global};

/// The most steps of a run.
pub const STEP_LIMIT: u64 = 1000;

/// Reads the bytes of a program as hexadecimal text, runs it from address 0 on a machine after
/// power-on, and writes the registers after each step and then how the run ended. For input that is
/// refused it writes one line. It writes nothing before all of the text is read.
pub fn run_step<R: Inlet, W: Outlet>(alloc: Global, reader: &mut R, writer: &mut W) -> Status
    ensures answers { AnswersInput step_status step_text result (R.state reader.old)
        (W.state writer.old) (W.state writer.new) }
    ensures blame { BlamesStreams result (R.state reader.old) (R.state reader.new)
        (W.state writer.old) (W.state writer.new) }
{
    match step_report(alloc, reader) {
        Ok(report) => deliver(writer, &report),
        Err(failure) => failure,
    }
}

fn step_report<R: Inlet>(alloc: Global, reader: &mut R) -> Result<Report, Status>
    ensures report { ReportsInput step_status step_text result (R.state reader.old) }
    ensures failure { IfErr result IsFailure }
    ensures blame { BlamesReader IfFailed result (R.state reader.old) (R.state reader.new) }
{
    match read_hex(alloc, reader) {
        Ok(bytes) => program_report(alloc, &bytes).map_err(|_| Status::OutOfMemory),
        Err(fault) => hex_refusal(alloc, fault),
    }
}

/// The report of a program's run.
fn program_report(alloc: Global, bytes: &[u8]) -> Result<Report, AllocError>
    ensures { IfOk result (λ report. IsReport report Status.Success (program_text bytes.now)) }
{
    let machine = load(alloc, bytes)?;
    let mut runner = Runner::new(alloc, machine);
    let mut text = String::new(alloc);
    runner.print_run(STEP_LIMIT, &mut text)?;
    Ok(Report {
        is_refused: false,
        text,
    })
}
