//! The messages about a program that can't be loaded.
ghost use Rattle.std.specs.Prelude.{◌≡◌, ◌≤◌, ◌+◌, ◌++◌, length, IfOk, codes, option_to_list};
ghost use Rattle.dap_run.specs.Messages.{turn_messages, as_messages};
ghost use Rattle.dap_run.specs.Refusals.{assembly_refusal};
ghost use Rattle.dap_launch.specs.Failures.{load_refusal, told_number, load_event};

use crate::load::LoadFault;
use asm_syntax::fault::{AsmFault, FaultKind};
use base_text::sequence::{Bytes, Sequence};
use base_text::text::Text;
use dap_messages::message::{EditorEvent, EditorOutcome, Message, OutputCategory, SourcePlace};
use dap_run::messages::{Messages, RequestId};
use dap_run::refusals::{assembly_refusal, board_refusal};
use lab_core::fault::EventFault;
use std::alloc::{AllocError, Global};

fn load_refusal(alloc: Global, text: &str, fault: LoadFault) -> Result<Text, AllocError>
    ensures { IfOk result (λ refusal. refusal ≡ load_refusal text.now fault) }
{
    match fault {
        LoadFault::OutOfMemory => Text::copy_of(alloc, "out of memory"),
        LoadFault::NoStart => Text::copy_of(alloc, "the program has no start: END names none"),
        LoadFault::Refused(EventFault::Assembly(AsmFault::At { line, column, kind })) => {
            assembly_refusal(alloc, line, column, kind, text)
        }
        LoadFault::Refused(fault) => Text::copy_of(alloc, board_refusal(fault)),
    }
}

fn told_number(number: usize) -> u32
    ensures { result ≡ told_number number }
{
    number.min(4_294_967_295) as u32
}

// The fault in a program's text, as a line of output.
fn fault_line(
    alloc: Global,
    line: usize,
    column: usize,
    kind: FaultKind,
    text: &str,
) -> Result<Bytes, AllocError>
    ensures { IfOk result (λ bytes. bytes ≡ assembly_refusal line column kind text.now ++ codes "\n") }
{
    let refusal = assembly_refusal(alloc, line, column, kind, text)?;
    let mut bytes = refusal.as_str().as_bytes().to_vec(alloc)?;
    bytes.push(b'\n')?;
    Ok(Bytes::from(bytes))
}

fn load_event(
    alloc: Global,
    path: &Text,
    text: &str,
    fault: LoadFault,
) -> Result<Option<EditorEvent>, AllocError>
    ensures { IfOk result (λ event. event ≡ load_event path.now text.now fault) }
{
    let LoadFault::Refused(EventFault::Assembly(AsmFault::At { line, column, kind })) = fault else {
        return Ok(None);
    };
    let path = path.clone()?;
    let bytes = fault_line(alloc, line, column, kind, text)?;
    let place = SourcePlace {
        path,
        line: told_number(line),
        column: told_number(column),
    };
    Ok(Some(EditorEvent::Output {
        category: OutputCategory::Stderr,
        bytes,
        place: Some(place),
    }))
}

fn push_some(messages: &mut Messages, event: Option<EditorEvent>)
    requires { length messages.old + 1 ≤ 8 }
    ensures { messages.new ≡ messages.old ++ as_messages (option_to_list event) }
{
    match event {
        None => {}
        Some(event) => messages.push_event(event),
    }
}

/// The messages about a launch or a restart that fails, of the program with this path and text.
pub fn failure(
    alloc: Global,
    caller: RequestId,
    path: &Text,
    text: &str,
    fault: LoadFault,
) -> Result<Sequence<Message>, AllocError>
    ensures { IfOk result (λ messages. messages
        ≡ turn_messages caller (EditorOutcome.Refused (load_refusal text.now fault))
        (option_to_list (load_event path.now text.now fault))) }
{
    let mut messages = Messages::new(alloc)?;
    let refusal = load_refusal(alloc, text, fault)?;
    let event = load_event(alloc, path, text, fault)?;
    messages.push_response(caller, EditorOutcome::Refused(refusal));
    push_some(&mut messages, event);
    Ok(messages.into_sequence())
}
