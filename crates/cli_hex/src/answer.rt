//! What an engine answers, and how it is written.
ghost use Rattle.std.specs.Prelude.{◌≡◌, IfOk, IfErr};
ghost use Rattle.cli_io.specs.Engine.{WritesAnswer, answer_status, BlamesWriter};
ghost use Rattle.cli_io.specs.Report.{IsToldByText};
ghost use Rattle.cli_hex.specs.Answer.{IsAnswer, RefusesAs, fault_line};

use base_streams::ports::Outlet;
use base_streams::writing::write_all;
use cli_io::reading::TextFault;
use cli_io::status::Status;
use std::alloc::{AllocError, Global};

/// Bytes, and whether they say that the input is refused.
#[derive(Drop)]
pub(crate) struct Answer {
    pub(crate) is_refused: bool,
    pub(crate) bytes: Vec<u8>,
}

/// The answer that these bytes are.
pub(crate) fn success(bytes: Vec<u8>) -> Answer
    ensures { IsAnswer result Status.Success bytes.items }
{
    Answer {
        is_refused: false,
        bytes,
    }
}

/// The answer that the input is refused, with this line.
pub(crate) fn refusal(alloc: Global, line: &str) -> Result<Answer, AllocError>
    ensures { IfOk result (λ a. IsAnswer a Status.Refused line.now) }
{
    let text = String::from_str(alloc, line)?;
    Ok(Answer {
        is_refused: true,
        bytes: text.into_bytes(),
    })
}

/// The answer that something is wrong at a line and a column, both counted from 1.
pub(crate) fn fault_answer(
    alloc: Global,
    line: usize,
    column: usize,
    name: &str,
) -> Result<Answer, AllocError>
    ensures { IfOk result (λ a. IsAnswer a Status.Refused (fault_line line column name.now)) }
{
    let mut text = String::new(alloc);
    write!(text, "{line}:{column} {name}\n")?;
    Ok(Answer {
        is_refused: true,
        bytes: text.into_bytes(),
    })
}

/// The answer that text is refused; or the status, if nothing is to be written.
pub(crate) fn text_refusal(alloc: Global, fault: TextFault) -> Result<Answer, Status>
    ensures answer { IfOk result (RefusesAs fault) }
    ensures failure { IfErr result (IsToldByText fault) }
{
    match fault {
        TextFault::BadText => refusal(alloc, "bad text\n").map_err(|_| Status::OutOfMemory),
        TextFault::OutOfMemory => Err(Status::OutOfMemory),
        TextFault::Read => Err(Status::Failed),
    }
}

/// Writes the answer's bytes and returns its status, or `Failed` if a write failed.
pub(crate) fn deliver<W: Outlet>(writer: &mut W, answer: &Answer) -> Status
    ensures answers { WritesAnswer (answer_status answer.now.is_refused) answer.now.bytes.items result
        (W.state writer.old) (W.state writer.new) }
    ensures blame { BlamesWriter result (W.state writer.old) (W.state writer.new) }
{
    if write_all(writer, &answer.bytes).is_err() {
        return Status::Failed;
    }
    if answer.is_refused {
        Status::Refused
    } else {
        Status::Success
    }
}
