//! Breakpoints at instructions.
ghost use Rattle.std.specs.Prelude.{◌≡◌, ◌≤◌, ◌++◌, length, map, IfOk, OnOk};
ghost use Rattle.std.specs.List.{filter_map};
ghost use Rattle.lab_core.specs.Board.{Board};
ghost use Rattle.lab_core.specs.Labs.{RepresentsBoard};
ghost use Rattle.dap_breakpoints.specs.Instructions.{instruction_objection, checked_instruction};
ghost use Rattle.dap_breakpoints.specs.Instructions.{instructions_on, break_at, break_of, breaks_on};

use base_text::sequence::Sequence;
use dap_conditions::conditions::{objection, push_point, stop_by};
use dap_messages::message::{BreakpointNote, PlacedBreakpoint};
use dap_points::placed::{CheckedInstruction, instruction_points as placed_points};
use dap_requests::request::InstructionBreakpoint;
use dap_slice::conditions::{ConditionalBreakpoint, ConditionalBreakpoints, Trigger};
use lab_core::lab::Lab;
use std::alloc::{AllocError, Global};

// ---- what there is to object to one

fn objection_to(
    alloc: Global,
    lab: &Lab,
    breakpoint: &InstructionBreakpoint,
) -> Result<Option<BreakpointNote>, AllocError>
    ensures { (b : Board) → RepresentsBoard lab.now b
        → IfOk result (λ note. note ≡ instruction_objection b breakpoint.now) }
{
    match breakpoint.address {
        None => Ok(Some(BreakpointNote::NoAddress)),
        Some(_) => objection(alloc, lab, &breakpoint.options, breakpoint.has_texts),
    }
}

// ---- as an editor is told of them

fn checked_instruction(
    alloc: Global,
    lab: &Lab,
    breakpoint: &InstructionBreakpoint,
) -> Result<CheckedInstruction, AllocError>
    ensures { (b : Board) → RepresentsBoard lab.now b
        → IfOk result (λ checked. checked ≡ checked_instruction b breakpoint.now) }
{
    let objection = objection_to(alloc, lab, breakpoint)?;
    let options = breakpoint.options.clone()?;
    Ok(CheckedInstruction {
        address: breakpoint.address,
        options,
        objection,
    })
}

fn all_checked(
    alloc: Global,
    lab: &Lab,
    breakpoints: &[InstructionBreakpoint],
) -> Result<Sequence<CheckedInstruction>, AllocError>
    ensures checked { (b : Board) → RepresentsBoard lab.now b
        → IfOk result (λ all. all ≡ map (checked_instruction b) breakpoints.now) }
    ensures count { IfOk result (λ all. length all ≡ length breakpoints.now) }
{
    let mut all = Sequence::new(alloc);
    for breakpoint in breakpoints {
        all.push(checked_instruction(alloc, lab, breakpoint)?)?;
    }
    Ok(all)
}

/// Breakpoints at instructions, as an editor is told of them.
pub fn instruction_points(
    alloc: Global,
    lab: &Lab,
    breakpoints: &[InstructionBreakpoint],
) -> Result<Sequence<PlacedBreakpoint>, AllocError>
    requires { length breakpoints.now ≤ 256 }
    ensures { (b : Board) → RepresentsBoard lab.now b
        → IfOk result (λ points. points ≡ instructions_on b breakpoints.now) }
{
    let checked = all_checked(alloc, lab, breakpoints)?;
    placed_points(alloc, checked.as_slice())
}

// ---- where they stop a run

fn break_at(
    alloc: Global,
    point: &PlacedBreakpoint,
    address: Option<u16>,
) -> Result<Option<ConditionalBreakpoint>, AllocError>
    ensures { IfOk result (λ found. found ≡ break_at point.now address) }
{
    match address {
        None => Ok(None),
        Some(address) => stop_by(alloc, point.id, Trigger::Address(address), &point.options),
    }
}

// Where a breakpoint stops a run, if it is verified.
fn break_of(
    alloc: Global,
    point: &PlacedBreakpoint,
) -> Result<Option<ConditionalBreakpoint>, AllocError>
    ensures { IfOk result (λ found. found ≡ break_of point.now) }
{
    if point.is_verified {
        break_at(alloc, point, point.address)
    } else {
        Ok(None)
    }
}

fn push_all(
    alloc: Global,
    points: &mut ConditionalBreakpoints,
    placed: &[PlacedBreakpoint],
) -> Result<(), AllocError>
    ensures { OnOk result (points.new ≡ points.old ++ filter_map break_of placed.now) }
{
    let mut left = placed;
    while let Some((point, later)) = left.split_first() {
        push_point(points, break_of(alloc, point)?)?;
        left = later;
    }
    Ok(())
}

/// Adds the addresses where breakpoints at instructions stop a run: those of verified ones.
pub fn push_breaks(
    alloc: Global,
    lab: &Lab,
    points: &mut ConditionalBreakpoints,
    breakpoints: &[InstructionBreakpoint],
) -> Result<(), AllocError>
    requires { length breakpoints.now ≤ 256 }
    ensures { (b : Board) → RepresentsBoard lab.now b
        → OnOk result (points.new ≡ points.old ++ breaks_on b breakpoints.now) }
{
    let placed = instruction_points(alloc, lab, breakpoints)?;
    push_all(alloc, points, placed.as_slice())
}
