//! The views of a board.
ghost use Rattle.std.specs.Prelude.{◌≡◌, List, MatchResult, Ok, Err};
ghost use Rattle.i80_devs.specs.Past.{Operation};
ghost use Rattle.i80_devs.specs.Past as devices;
ghost use Rattle.lab_image.specs.Loads.{Load};
ghost use Rattle.lab_image.specs.Loads as origins;
ghost use Rattle.lab_views.specs.Parts.{Parts as BoardParts, RepresentsParts, parts_with};
ghost use Rattle.lab_views.specs.Code as code;
ghost use Rattle.lab_views.specs.Views.{Answers, frames_shown, scopes_shown, variables_shown};
ghost use Rattle.lab_views.specs.Views.{code_shown, source_shown, info_shown, view_of};

use crate::fault::ViewFault;
use crate::frames::{frame_count, frames};
use crate::info::breakpoints;
use crate::parts::Parts;
use crate::view::View;
use crate::{code, variables};
use base_text::sequence::Sequence;
use base_text::text::Text;
use i80_exec::machine::Machine;
use lab_shown::scope::Scope;
use lab_shown::shown::{Shown, Variable};
use std::alloc::{AllocError, Global};

/// The most lines of disassembly that are shown at once.
const MOST_LINES: u32 = 256;

/// What a view shows.
///
/// `Frames` and `Scopes` fail with `NotStopped` if no run is stopped, and then `Scopes` with `BadFrame` if
/// there is no such frame. `Variables` fails with `BadReference`, and `Source` with `NoSource`.
pub fn show(alloc: Global, parts: &Parts, view: &View) -> Result<Shown, ViewFault>
    ensures { (p : BoardParts) → RepresentsParts parts.now p → Answers result (view_of view.now p) }
{
    match view {
        View::Frames { start, levels } => show_frames(alloc, parts, *start, *levels),
        View::Scopes(id) => show_scopes(parts, *id),
        View::Variables {
            reference,
            start,
            count,
        } => show_variables(alloc, parts, *reference, *start, *count),
        View::Code { address, count } => show_code(alloc, parts, *address, *count),
        View::Source(path) => show_source(alloc, parts, path.as_str()),
        View::Info => show_info(alloc, parts),
    }
}

/// The address after that many instructions from an address on: where the line after as many lines of a
/// `Code` view stands. Addresses wrap after FFFFH.
pub fn after_instructions(machine: &Machine, address: u16, count: u16) -> u16
    ensures { result ≡ code.after_instructions machine.now address count }
{
    code::after(machine, address, count)
}

/// Variables as a view, or out of memory.
fn as_shown(variables: Result<Sequence<Variable>, AllocError>) -> Result<Shown, ViewFault>
    ensures { MatchResult variables (λ v. result ≡ Ok (Shown.Variables v))
        (λ _. result ≡ Err ViewFault.OutOfMemory) }
{
    match variables {
        Ok(variables) => Ok(Shown::Variables(variables)),
        Err(_) => Err(ViewFault::OutOfMemory),
    }
}

fn show_frames(alloc: Global, parts: &Parts, start: u32, levels: u32) -> Result<Shown, ViewFault>
    ensures { (past : List Operation) (loads : List Load) → origins.GivesOrigins parts.now.origins.now loads
        → Answers result (frames_shown (parts_with parts.now past loads) start levels) }
{
    if !parts.is_stopped {
        return Err(ViewFault::NotStopped);
    }
    match frames(alloc, parts, start, levels) {
        Ok(frames) => Ok(Shown::Frames {
            frames,
            total: frame_count(parts),
        }),
        Err(_) => Err(ViewFault::OutOfMemory),
    }
}

fn show_scopes(parts: &Parts, id: u32) -> Result<Shown, ViewFault>
    ensures { (past : List Operation) (loads : List Load)
        → Answers result (scopes_shown (parts_with parts.now past loads) id) }
{
    if !parts.is_stopped {
        return Err(ViewFault::NotStopped);
    }
    if 1 <= id && id <= frame_count(parts) {
        Ok(Shown::Scopes)
    } else {
        Err(ViewFault::BadFrame)
    }
}

fn show_variables(
    alloc: Global,
    parts: &Parts,
    reference: u32,
    start: u32,
    count: u32,
) -> Result<Shown, ViewFault>
    ensures { (past : List Operation) (loads : List Load) → devices.RepresentsPast parts.now.devices.now past
        → Answers result (variables_shown (parts_with parts.now past loads) reference start count) }
{
    let Some(scope) = Scope::with_reference(reference) else {
        return Err(ViewFault::BadReference);
    };
    match scope {
        Scope::Registers => as_shown(variables::registers(alloc, parts.machine.regs())),
        Scope::Flags => as_shown(variables::flags(alloc, parts.machine.regs())),
        Scope::Devices => as_shown(variables::devices(alloc, parts.devices)),
        Scope::Symbols => as_shown(variables::symbols(alloc, parts.symbols, start, count)),
        Scope::Memory => as_shown(variables::memory(alloc, parts.machine, start, count)),
    }
}

fn show_code(alloc: Global, parts: &Parts, address: u16, count: u32) -> Result<Shown, ViewFault>
    ensures { (past : List Operation) (loads : List Load)
        → Answers result (code_shown (parts_with parts.now past loads) address count) }
{
    match code::lines(alloc, parts.machine, address, count.min(MOST_LINES)) {
        Ok(lines) => Ok(Shown::Code(lines)),
        Err(_) => Err(ViewFault::OutOfMemory),
    }
}

fn show_source(alloc: Global, parts: &Parts, path: &str) -> Result<Shown, ViewFault>
    ensures { (past : List Operation) (loads : List Load)
        → Answers result (source_shown (parts_with parts.now past loads) path.now) }
{
    match parts.sources.find(path) {
        Some((_, text)) => {
            let text = Text::copy_of(alloc, text)?;
            Ok(Shown::Source(text))
        }
        None => Err(ViewFault::NoSource),
    }
}

fn show_info(alloc: Global, parts: &Parts) -> Result<Shown, ViewFault>
    ensures { (past : List Operation) (loads : List Load)
        → Answers result (info_shown (parts_with parts.now past loads)) }
{
    let breakpoints = breakpoints(alloc, parts.sources, parts.breakpoints)?;
    Ok(Shown::Info {
        is_attached: parts.is_attached,
        is_stopped: parts.is_stopped,
        breakpoints,
    })
}
