//! The name, value and traceback of an error.
ghost use Rattle.std.specs.Prelude.{◌≡◌, ◌++◌, IfOk, codes, decimal, string_bytes};
ghost use Rattle.base_text.specs.Hexadecimal.{upper_byte, upper_word};
ghost use Rattle.serde_json.specs.View.{view};
ghost use Rattle.kern_render.specs.Causes.{ename_of, evalue_of, fault_text, error_line, traceback_of};

use asm_syntax::fault::AsmFault;
use base_text::hexadecimal::{push_byte, push_word};
use kern_post::content::Cause;
use serde_json::{Value, json};
use std::alloc::{AllocError, Global};

/// The name of an error (`ename`).
pub(crate) fn ename(cause: Cause) -> &'static str
    ensures { result.now ≡ ename_of cause }
{
    match cause {
        Cause::Assembly(_) => "AssemblyError",
        Cause::UndefinedOpcode { .. } => "UndefinedOpcode",
        Cause::Interrupted => "Interrupted",
        Cause::Reset => "Reset",
        Cause::QueueFull => "QueueFull",
        Cause::BadContent => "BadContent",
        Cause::SourceNameTaken => "SourceNameTaken",
        Cause::SourcesFull => "SourcesFull",
    }
}

// The line and the column, from 1, and the name of the fault there.
fn place_text(alloc: Global, line: usize, column: usize, name: &str) -> Result<String, AllocError>
    ensures { IfOk result (λ text. string_bytes text
        ≡ decimal line ++ codes ":" ++ decimal column ++ codes " " ++ name.now) }
{
    let mut text = String::new(alloc);
    write!(text, "{line}:{column} {name}")?;
    Ok(text)
}

fn fault_text(alloc: Global, fault: AsmFault) -> Result<String, AllocError>
    ensures { IfOk result (λ text. string_bytes text ≡ fault_text fault) }
{
    match fault {
        AsmFault::OutOfMemory => String::from_str(alloc, "OutOfMemory"),
        AsmFault::At { line, column, kind } => place_text(alloc, line, column, kind.name()),
    }
}

fn opcode_text(alloc: Global, opcode: u8, pc: u16) -> Result<String, AllocError>
    ensures { IfOk result
        (λ text. string_bytes text ≡ upper_byte opcode ++ codes " at " ++ upper_word pc) }
{
    let mut text = String::new(alloc);
    push_byte(&mut text, opcode)?;
    text.push_str(" at ")?;
    push_word(&mut text, pc)?;
    Ok(text)
}

/// The value of an error (`evalue`), which is empty if the name says all.
pub(crate) fn evalue(alloc: Global, cause: Cause) -> Result<String, AllocError>
    ensures { IfOk result (λ text. string_bytes text ≡ evalue_of cause) }
{
    match cause {
        Cause::Assembly(fault) => fault_text(alloc, fault),
        Cause::UndefinedOpcode { opcode, pc } => opcode_text(alloc, opcode, pc),
        Cause::Interrupted
        | Cause::Reset
        | Cause::QueueFull
        | Cause::BadContent
        | Cause::SourceNameTaken
        | Cause::SourcesFull => Ok(String::new(alloc)),
    }
}

fn error_line(alloc: Global, cause: Cause) -> Result<String, AllocError>
    ensures { IfOk result (λ text. string_bytes text ≡ error_line cause) }
{
    let name = ename(cause);
    let value = evalue(alloc, cause)?;
    format!(in alloc; "{name}: {value}")
}

/// The traceback of an error: a list of one line.
pub(crate) fn traceback(alloc: Global, cause: Cause) -> Result<Value, AllocError>
    ensures { IfOk result (λ v. view v ≡ traceback_of cause) }
{
    json!(in alloc; [error_line(alloc, cause)?])
}
