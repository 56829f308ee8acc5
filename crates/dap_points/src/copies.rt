//! Copies of the breakpoints that an editor set.
ghost use Rattle.std.specs.Prelude.{◌≡◌, IfOk};

use crate::points::SourceLines;
use base_text::sequence::Sequence;
use base_text::text::Text;
use dap_requests::request::{
    DataBreakpoint, FunctionBreakpoint, InstructionBreakpoint, LineBreakpoint,
};
use std::alloc::{AllocError, Global};

fn copy_line(breakpoint: &LineBreakpoint) -> Result<LineBreakpoint, AllocError>
    ensures { IfOk result (λ copy. copy ≡ breakpoint.now) }
{
    let options = breakpoint.options.clone()?;
    Ok(LineBreakpoint {
        line: breakpoint.line,
        options,
        has_texts: breakpoint.has_texts,
    })
}

// A copy of breakpoints on lines.
fn copy_lines(
    alloc: Global,
    lines: &[LineBreakpoint],
) -> Result<Sequence<LineBreakpoint>, AllocError>
    ensures { IfOk result (λ copies. copies ≡ lines.now) }
{
    let mut copies = Sequence::new(alloc);
    for breakpoint in lines {
        copies.push(copy_line(breakpoint)?)?;
    }
    Ok(copies)
}

/// The breakpoints of the source with this path, in a copy.
pub fn copy_source(
    alloc: Global,
    path: &Text,
    lines: &[LineBreakpoint],
) -> Result<SourceLines, AllocError>
    ensures { IfOk result (λ copy. copy ≡ record { path = path.now; lines = lines.now }) }
{
    let path = path.clone()?;
    let lines = copy_lines(alloc, lines)?;
    Ok(SourceLines { path, lines })
}

fn copy_function(function: &FunctionBreakpoint) -> Result<FunctionBreakpoint, AllocError>
    ensures { IfOk result (λ copy. copy ≡ function.now) }
{
    let name = function.name.clone()?;
    let options = function.options.clone()?;
    Ok(FunctionBreakpoint {
        name,
        options,
        has_texts: function.has_texts,
    })
}

/// A copy of breakpoints at labels.
pub fn copy_functions(
    alloc: Global,
    functions: &[FunctionBreakpoint],
) -> Result<Sequence<FunctionBreakpoint>, AllocError>
    ensures { IfOk result (λ copies. copies ≡ functions.now) }
{
    let mut copies = Sequence::new(alloc);
    for function in functions {
        copies.push(copy_function(function)?)?;
    }
    Ok(copies)
}

fn copy_watch(breakpoint: &DataBreakpoint) -> Result<DataBreakpoint, AllocError>
    ensures { IfOk result (λ copy. copy ≡ breakpoint.now) }
{
    let data_id = breakpoint.data_id.clone()?;
    let options = breakpoint.options.clone()?;
    Ok(DataBreakpoint {
        data_id,
        options,
        is_write: breakpoint.is_write,
        has_texts: breakpoint.has_texts,
    })
}

/// A copy of breakpoints on data.
pub fn copy_data(
    alloc: Global,
    breakpoints: &[DataBreakpoint],
) -> Result<Sequence<DataBreakpoint>, AllocError>
    ensures { IfOk result (λ copies. copies ≡ breakpoints.now) }
{
    let mut copies = Sequence::new(alloc);
    for breakpoint in breakpoints {
        copies.push(copy_watch(breakpoint)?)?;
    }
    Ok(copies)
}

fn copy_instruction(breakpoint: &InstructionBreakpoint) -> Result<InstructionBreakpoint, AllocError>
    ensures { IfOk result (λ copy. copy ≡ breakpoint.now) }
{
    let options = breakpoint.options.clone()?;
    Ok(InstructionBreakpoint {
        address: breakpoint.address,
        options,
        has_texts: breakpoint.has_texts,
    })
}

/// A copy of breakpoints at instructions.
pub fn copy_instructions(
    alloc: Global,
    breakpoints: &[InstructionBreakpoint],
) -> Result<Sequence<InstructionBreakpoint>, AllocError>
    ensures { IfOk result (λ copies. copies ≡ breakpoints.now) }
{
    let mut copies = Sequence::new(alloc);
    for breakpoint in breakpoints {
        copies.push(copy_instruction(breakpoint)?)?;
    }
    Ok(copies)
}
