//! The scopes that an editor shows, and their variables.
ghost use Rattle.std.specs.Prelude.{◌≡◌, ◌≢◌, Err, IfOk};
ghost use Rattle.lab_core.specs.Board.{Board};
ghost use Rattle.lab_core.specs.Labs.{RepresentsBoard};
ghost use Rattle.dap_scopes.specs.Scopes.{rows_in, sizes_on, variables_on};

use crate::rows::{Rows, devices, flags, memory, registers, symbols};
use crate::stack::{stack, stack_words};
use base_text::sequence::Sequence;
use dap_messages::message::{EditorVariable, ValueFormat};
use lab_core::fault::EventFault;
use lab_core::lab::Lab;
use lab_shown::scope::Scope;
use lab_views::paging::asked_for;
use std::alloc::{AllocError, Global};

/// The reference of the stack, after those of the board's own scopes.
const STACK: u32 = 6;

/// The most variables that are shown at once, and the usual count of symbols.
const MOST_VARIABLES: u32 = 256;

/// The usual count of bytes of memory, and of words of the stack.
const USUAL_COUNT: u32 = 16;

/// How many variables there are in scopes that may be shown in parts.
#[derive(Clone, Copy)]
pub struct ScopeSizes {
    pub symbols: u32,
    /// On the stack.
    pub words: u32,
}

fn rows_in(
    alloc: Global,
    lab: &Lab,
    scope: Scope,
    start: u32,
    count: u32,
    format: ValueFormat,
) -> Result<Rows, AllocError>
    ensures { (b : Board) → RepresentsBoard lab.now b
        → IfOk result (λ rows. rows ≡ rows_in scope b start count format) }
{
    match scope {
        Scope::Registers => registers(alloc, lab.regs(), format),
        Scope::Flags => flags(alloc, lab.regs(), format),
        Scope::Devices => devices(alloc, lab.devices(), format),
        Scope::Symbols => {
            let many = asked_for(MOST_VARIABLES, MOST_VARIABLES, count);
            symbols(alloc, lab.symbols(), start, many, format)
        }
        Scope::Memory => {
            let many = asked_for(USUAL_COUNT, MOST_VARIABLES, count);
            memory(alloc, lab, start, many, format)
        }
    }
}

/// The variables of a scope, given by its reference: 1 to 5 as in the board's own views, with the register
/// pairs and PSW among the registers, and 6 for the stack. Of symbols, memory and the stack there are at most
/// `count` from `start` on, and at most 256; a count of 0 means 256 symbols, or 16 bytes or words.
///
/// Numbers in values are written in the format, but not the number of the latched request, the number of
/// bytes that wait, and the addresses by which rows are named. A word of the stack that is the return address
/// of a live frame is shown with the routine behind it. Fails with `BadReference` for any other scope.
pub fn variables(
    alloc: Global,
    lab: &Lab,
    reference: u32,
    start: u32,
    count: u32,
    format: ValueFormat,
) -> Result<Sequence<EditorVariable>, EventFault>
    ensures { (b : Board) → RepresentsBoard lab.now b → result ≢ Err EventFault.OutOfMemory
        → result ≡ variables_on b reference start count format }
{
    if reference == STACK {
        let many = asked_for(USUAL_COUNT, MOST_VARIABLES, count);
        let rows = stack(alloc, lab, start, many, format)?;
        return Ok(rows);
    }
    let Some(scope) = Scope::with_reference(reference) else {
        return Err(EventFault::BadReference);
    };
    let rows = rows_in(alloc, lab, scope, start, count, format)?;
    Ok(rows)
}

/// How many symbols there are, and how many words on the stack from SP up to the last address.
pub fn sizes(lab: &Lab) -> ScopeSizes
    ensures { (b : Board) → RepresentsBoard lab.now b → result ≡ sizes_on b }
{
    ScopeSizes {
        symbols: lab.symbols().len().min(u32::MAX as usize) as u32,
        words: stack_words(lab.regs().sp),
    }
}
