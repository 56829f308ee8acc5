//! The texts of refusals.
ghost use Rattle.std.specs.Prelude.{◌≡◌, ◌++◌, codes, IfOk, OnOk, string_bytes};
ghost use Rattle.dap_run.specs.Refusals.{board_refusal, request_refusal, behind_fault};
ghost use Rattle.dap_run.specs.Refusals.{assembly_refusal};

use crate::words::told_at;
use asm_syntax::fault::FaultKind;
use base_text::text::Text;
use dap_messages::message::EditorOutcome;
use dap_requests::request::RequestFault;
use lab_core::fault::EventFault;
use std::alloc::{AllocError, Global};

/// Why the board refuses an event.
pub fn board_refusal(fault: EventFault) -> &'static str
    ensures { result.now ≡ board_refusal fault }
{
    match fault {
        EventFault::OutOfMemory => "out of memory",
        EventFault::NotRunning => "no program runs",
        EventFault::NotStopped => "no program is stopped",
        EventFault::Busy => "a program runs",
        EventFault::SourceNameTaken => "the path has another text",
        EventFault::NoSource => "no text has this path",
        EventFault::Latched => "a request is latched already",
        EventFault::BadFrame => "there is no such frame",
        EventFault::BadReference => "no scope for this has the reference",
        EventFault::Assembly(_) => "the text has a fault",
        EventFault::NotAttached => "no debugger is attached",
        EventFault::Vector => "there are the buttons 0 to 7",
        EventFault::SourcesFull => "there are 1,024 sources",
        EventFault::UnknownName => "there is no such register or address",
        EventFault::BadValue => "the value is no number that fits there",
    }
}

/// Why a request can't be carried out, whatever the program is.
pub fn request_refusal(alloc: Global, fault: &RequestFault) -> Result<Text, AllocError>
    ensures { IfOk result (λ text. text ≡ request_refusal fault.now) }
{
    match fault {
        RequestFault::NotRequest => Text::copy_of(alloc, "not a request"),
        RequestFault::UnknownCommand => Text::copy_of(alloc, "unknown command"),
        RequestFault::Arguments => Text::copy_of(alloc, "bad arguments"),
        RequestFault::Argument(name) => bad_argument(alloc, name.as_str()),
    }
}

fn bad_argument(alloc: Global, name: &str) -> Result<Text, AllocError>
    ensures { IfOk result (λ text. text ≡ codes "bad arguments: " ++ name.now) }
{
    let mut text = String::from_str(alloc, "bad arguments: ")?;
    text.push_str(name)?;
    Ok(Text::from(text))
}

fn push_behind_fault(text: &mut String, word: &str) -> Result<(), AllocError>
    ensures { OnOk result (string_bytes text.new ≡ string_bytes text.old ++ behind_fault word.now) }
{
    if word.is_empty() {
        return Ok(());
    }
    text.push_str(": ")?;
    text.push_str(word)
}

/// The fault in a program's text: `LINE:COLUMN NAME`, and the word there.
pub fn assembly_refusal(
    alloc: Global,
    line: usize,
    column: usize,
    kind: FaultKind,
    text: &str,
) -> Result<Text, AllocError>
    ensures { IfOk result (λ refusal. refusal ≡ assembly_refusal line column kind text.now) }
{
    let name = kind.name();
    let word = told_at(alloc, text, line, column, kind)?;
    let mut refusal = String::new(alloc);
    write!(refusal, "{line}:{column} {name}")?;
    push_behind_fault(&mut refusal, word.as_str())?;
    Ok(Text::from(refusal))
}

/// The outcome of a request that is refused with this text.
pub fn refused(alloc: Global, text: &str) -> Result<EditorOutcome, AllocError>
    ensures { IfOk result (λ outcome. outcome ≡ EditorOutcome.Refused text.now) }
{
    let text = Text::copy_of(alloc, text)?;
    Ok(EditorOutcome::Refused(text))
}
