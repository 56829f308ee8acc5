//! The JSON of a disassembly.
ghost use Rattle.std.specs.Prelude.{◌≡◌, ◌++◌, IfOk, codes};
ghost use Rattle.serde_json.specs.View.{view};
ghost use Rattle.dap_answers.specs.Object.{HasMembers};
ghost use Rattle.dap_answers.specs.Json.{members_from, one_list};
ghost use Rattle.dap_json.specs.Instructions.{code_members, symbol_members, instruction_json};

use crate::sources::source;
use crate::told::{ToldJson, told_list};
use dap_answers::json::{reference, spaced_bytes};
use dap_answers::object::Object;
use dap_messages::message::{EditorInstruction, Numbering};
use lab_shown::shown::CodeLine;
use serde_json::Value;
use std::alloc::{AllocError, Global};

// The members of every line.
fn bare_line(alloc: Global, code: &CodeLine) -> Result<Object, AllocError>
    ensures { IfOk result (λ o. HasMembers o (members_from (code_members code.now))) }
{
    let address = reference(alloc, code.address)?;
    let bytes = spaced_bytes(alloc, code.bytes.as_slice())?;
    Ok(
        Object::new(alloc)
            .value("address", address)
            .text("instruction", code.text.as_str())
            .value("instructionBytes", bytes),
    )
}

// The members of a line without its origin.
fn line_with_symbol(alloc: Global, line: &EditorInstruction) -> Result<Object, AllocError>
    ensures { IfOk result (λ o. HasMembers o
        (members_from (code_members line.now.code ++ symbol_members line.now.symbol))) }
{
    let bare = bare_line(alloc, &line.code)?;
    match &line.symbol {
        None => Ok(bare),
        Some(symbol) => Ok(bare.text("symbol", symbol.as_str())),
    }
}

impl ToldJson for EditorInstruction {
    ghost json = { instruction_json };

    fn told_json(&self, alloc: Global, numbering: Numbering) -> Result<Value, AllocError> {
        let line = line_with_symbol(alloc, self)?;
        match &self.origin {
            None => line.finish(),
            Some(origin) => {
                let source = source(alloc, origin.path.as_str())?;
                line.value("location", source)
                    .number("line", numbering.line_told(origin.line as u64))
                    .finish()
            }
        }
    }
}

/// The JSON of a disassembly.
pub fn instructions(
    alloc: Global,
    numbering: Numbering,
    list: &[EditorInstruction],
) -> Result<Value, AllocError>
    ensures { IfOk result (λ v. view v
        ≡ one_list (codes "instructions") (instruction_json numbering) list.now) }
{
    let list = told_list(alloc, numbering, list)?;
    Object::new(alloc).value("instructions", list).finish()
}
