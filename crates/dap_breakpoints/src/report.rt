//! The breakpoints of all sources, as an editor is told of them.
ghost use Rattle.std.specs.Prelude.{◌≡◌, ◌≤◌, ◌+◌, ◌++◌, length, IfOk, OnOk};
ghost use Rattle.lab_core.specs.Board.{Board};
ghost use Rattle.lab_core.specs.Labs.{RepresentsBoard};
ghost use Rattle.dap_breakpoints.specs.Reports.{points_for, points_where, labels_where, changed_from};
ghost use Rattle.dap_breakpoints.specs.Reports.{data_where, instructions_where, changed_off_lines};
ghost use Rattle.dap_breakpoints.specs.Reports.{all_changed};
ghost use Rattle.dap_breakpoints.specs.Data.{points_on};
ghost use Rattle.dap_breakpoints.specs.Instructions.{instructions_on};
ghost use Rattle.dap_points.specs.Changes.{changed_points};
ghost use Rattle.dap_breakpoints.specs.Lines.{labels_on};

use crate::data::data_points;
use crate::instructions::instruction_points;
use crate::lines::{labels_on, lines_on};
use base_text::sequence::Sequence;
use dap_messages::message::{BreakpointNote, PlacedBreakpoint};
use dap_points::changes::changed_points;
use dap_points::placed::{
    other_points, unlaunched_data, unlaunched_instructions, unlaunched_labels,
};
use dap_points::points::{SourceLines, WantedBreakpoints};
use dap_requests::request::{DataBreakpoint, FunctionBreakpoint, InstructionBreakpoint};
use dap_run::program::{LoadedProgram, Program};
use lab_core::lab::Lab;
use std::alloc::{AllocError, Global};

// The breakpoints of the source with this number, beside a program.
fn points_for(
    alloc: Global,
    program: &Program,
    lab: &Lab,
    number: u32,
    source: &SourceLines,
) -> Result<Sequence<PlacedBreakpoint>, AllocError>
    requires { number ≤ 1025 }
    ensures { (b : Board) → RepresentsBoard lab.now b
        → IfOk result (λ points. points ≡ points_for program.now b number source.now) }
{
    if program.launch.canonical.as_str() == source.path.as_str() {
        return lines_on(alloc, lab, number, source.used());
    }
    let why = BreakpointNote::OtherProgram(program.launch.program.clone()?);
    other_points(alloc, &why, number, source.used())
}

/// The breakpoints of the source with this number, beside the program, if one is launched.
pub fn points_where(
    alloc: Global,
    program: &Option<Program>,
    lab: &Lab,
    number: u32,
    source: &SourceLines,
) -> Result<Sequence<PlacedBreakpoint>, AllocError>
    requires { number ≤ 1025 }
    ensures { (b : Board) → RepresentsBoard lab.now b
        → IfOk result (λ points. points ≡ points_where program.now b number source.now) }
{
    match program {
        None => other_points(alloc, &BreakpointNote::NotLaunched, number, source.used()),
        Some(program) => points_for(alloc, program, lab, number, source),
    }
}

/// The breakpoints at these labels of the program, if one is launched.
pub fn labels_where(
    alloc: Global,
    program: &Option<Program>,
    functions: &[FunctionBreakpoint],
    lab: &Lab,
) -> Result<Sequence<PlacedBreakpoint>, AllocError>
    requires { length functions.now ≤ 256 }
    ensures { (b : Board) → RepresentsBoard lab.now b
        → IfOk result (λ labels. labels ≡ labels_where program.now functions.now b) }
{
    match program {
        None => unlaunched_labels(alloc, functions),
        Some(_) => labels_on(alloc, lab, functions),
    }
}

/// The breakpoints on data of the program, if one is launched.
pub fn data_where(
    alloc: Global,
    program: &Option<Program>,
    on_data: &[DataBreakpoint],
    lab: &Lab,
) -> Result<Sequence<PlacedBreakpoint>, AllocError>
    requires { length on_data.now ≤ 256 }
    ensures { (b : Board) → RepresentsBoard lab.now b
        → IfOk result (λ points. points ≡ data_where program.now on_data.now b) }
{
    match program {
        None => unlaunched_data(alloc, on_data),
        Some(_) => data_points(alloc, lab, on_data),
    }
}

/// The breakpoints at instructions of the program, if one is launched.
pub fn instructions_where(
    alloc: Global,
    program: &Option<Program>,
    instructions: &[InstructionBreakpoint],
    lab: &Lab,
) -> Result<Sequence<PlacedBreakpoint>, AllocError>
    requires { length instructions.now ≤ 256 }
    ensures { (b : Board) → RepresentsBoard lab.now b
        → IfOk result (λ points. points ≡ instructions_where program.now instructions.now b) }
{
    match program {
        None => unlaunched_instructions(alloc, instructions),
        Some(_) => instruction_points(alloc, lab, instructions),
    }
}

// The breakpoints of the source with this number that aren't what they were.
fn changed_in(
    alloc: Global,
    before: &Option<Program>,
    old: &Lab,
    loaded: &LoadedProgram,
    number: u32,
    source: &SourceLines,
) -> Result<Sequence<PlacedBreakpoint>, AllocError>
    requires { number ≤ 1025 }
    ensures { (o b : Board) → RepresentsBoard old.now o → RepresentsBoard loaded.now.lab b
        → IfOk result (λ points. points ≡ changed_points (points_where before.now o number source.now)
        (points_for loaded.now.program b number source.now)) }
{
    let told = points_where(alloc, before, old, number, source)?;
    let points = points_for(alloc, &loaded.program, &loaded.lab, number, source)?;
    changed_points(alloc, told.as_slice(), points.as_slice())
}

fn push_points(
    all: &mut Sequence<PlacedBreakpoint>,
    points: Sequence<PlacedBreakpoint>,
) -> Result<(), AllocError>
    ensures { OnOk result (all.new ≡ all.old ++ points) }
{
    for point in points.into_vec() {
        all.push(point)?;
    }
    Ok(())
}

fn changed_from(
    alloc: Global,
    before: &Option<Program>,
    old: &Lab,
    loaded: &LoadedProgram,
    sources: &[SourceLines],
) -> Result<Sequence<PlacedBreakpoint>, AllocError>
    requires { length sources.now ≤ 1024 }
    ensures { (o b : Board) → RepresentsBoard old.now o → RepresentsBoard loaded.now.lab b
        → IfOk result (λ points. points ≡ changed_from before.now o loaded.now.program b 1 sources.now) }
{
    let mut all = Sequence::new(alloc);
    let mut number = 1;
    let mut left = sources;
    while let Some((source, later)) = left.split_first() {
        push_points(
            &mut all,
            changed_in(alloc, before, old, loaded, number, source)?,
        )?;
        number += 1;
        left = later;
    }
    Ok(all)
}

// The breakpoints at labels that aren't what they were.
fn changed_labels(
    alloc: Global,
    before: &Option<Program>,
    old: &Lab,
    lab: &Lab,
    functions: &[FunctionBreakpoint],
) -> Result<Sequence<PlacedBreakpoint>, AllocError>
    requires { length functions.now ≤ 256 }
    ensures { (o b : Board) → RepresentsBoard old.now o → RepresentsBoard lab.now b
        → IfOk result (λ points. points
        ≡ changed_points (labels_where before.now functions.now o) (labels_on b functions.now)) }
{
    let told = labels_where(alloc, before, functions, old)?;
    let points = labels_on(alloc, lab, functions)?;
    changed_points(alloc, told.as_slice(), points.as_slice())
}

// The breakpoints on data that aren't what they were.
fn changed_data(
    alloc: Global,
    before: &Option<Program>,
    old: &Lab,
    lab: &Lab,
    on_data: &[DataBreakpoint],
) -> Result<Sequence<PlacedBreakpoint>, AllocError>
    requires { length on_data.now ≤ 256 }
    ensures { (o b : Board) → RepresentsBoard old.now o → RepresentsBoard lab.now b
        → IfOk result (λ points. points
        ≡ changed_points (data_where before.now on_data.now o) (points_on b on_data.now)) }
{
    let told = data_where(alloc, before, on_data, old)?;
    let points = data_points(alloc, lab, on_data)?;
    changed_points(alloc, told.as_slice(), points.as_slice())
}

// The breakpoints at instructions that aren't what they were.
fn changed_instructions(
    alloc: Global,
    before: &Option<Program>,
    old: &Lab,
    lab: &Lab,
    instructions: &[InstructionBreakpoint],
) -> Result<Sequence<PlacedBreakpoint>, AllocError>
    requires { length instructions.now ≤ 256 }
    ensures { (o b : Board) → RepresentsBoard old.now o → RepresentsBoard lab.now b
        → IfOk result (λ points. points ≡ changed_points (instructions_where before.now instructions.now o)
        (instructions_on b instructions.now)) }
{
    let told = instructions_where(alloc, before, instructions, old)?;
    let points = instruction_points(alloc, lab, instructions)?;
    changed_points(alloc, told.as_slice(), points.as_slice())
}

// The breakpoints on data and at instructions that aren't what they were.
fn changed_off_lines(
    alloc: Global,
    before: &Option<Program>,
    old: &Lab,
    lab: &Lab,
    points: &WantedBreakpoints,
) -> Result<Sequence<PlacedBreakpoint>, AllocError>
    ensures { (o b : Board) → RepresentsBoard old.now o → RepresentsBoard lab.now b
        → IfOk result (λ changed. changed ≡ changed_off_lines before.now o b points.now) }
{
    let mut changed = changed_data(alloc, before, old, lab, points.on_data())?;
    let instructions = changed_instructions(alloc, before, old, lab, points.instructions())?;
    push_points(&mut changed, instructions)?;
    Ok(changed)
}

/// The breakpoints that aren't what they were, when a program takes the place of the one before, if there
/// was one, and of its board.
pub fn all_changed(
    alloc: Global,
    before: &Option<Program>,
    old: &Lab,
    loaded: &LoadedProgram,
    points: &WantedBreakpoints,
) -> Result<Sequence<PlacedBreakpoint>, AllocError>
    ensures { (o b : Board) → RepresentsBoard old.now o → RepresentsBoard loaded.now.lab b
        → IfOk result (λ all. all ≡ all_changed before.now o loaded.now.program points.now b) }
{
    let mut all = changed_from(alloc, before, old, loaded, points.sources())?;
    let labels = changed_labels(alloc, before, old, &loaded.lab, points.functions())?;
    push_points(&mut all, labels)?;
    let off_lines = changed_off_lines(alloc, before, old, &loaded.lab, points)?;
    push_points(&mut all, off_lines)?;
    Ok(all)
}
