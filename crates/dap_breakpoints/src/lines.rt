//! Breakpoints on the lines and at the labels of a program on its board.
ghost use Rattle.std.specs.Prelude.{◌≡◌, length, map, find, nat_le, IfOk, ◌≤◌};
ghost use Rattle.lab_core.specs.Board.{Board};
ghost use Rattle.lab_core.specs.Labs.{RepresentsBoard};
ghost use Rattle.dap_breakpoints.specs.Lines.{landed_in, landed_at, lines_on, label_line, found_label};
ghost use Rattle.dap_breakpoints.specs.Lines.{labels_on};

use base_text::sequence::Sequence;
use dap_conditions::conditions::objection;
use dap_disassembly::code_lines::line_set;
use dap_disassembly::label::line_of_label;
use dap_messages::message::PlacedBreakpoint;
use dap_points::placed::{FoundLabel, LandedLine, label_points, line_points};
use dap_requests::request::{FunctionBreakpoint, LineBreakpoint};
use lab_core::lab::Lab;
use std::alloc::{AllocError, Global};
use std::collections::BTreeSet;

fn first_from(lines: &BTreeSet<u32>, line: u32) -> Option<u32>
    ensures { result ≡ find (nat_le line) lines.now.keys }
{
    for found in lines {
        if line <= *found {
            return Some(*found);
        }
    }
    None
}

fn landed_in(
    alloc: Global,
    lab: &Lab,
    lines: &BTreeSet<u32>,
    asked: &LineBreakpoint,
) -> Result<LandedLine, AllocError>
    ensures { (b : Board) → RepresentsBoard lab.now b
        → IfOk result (λ landed. landed ≡ landed_in b lines.now.keys asked.now) }
{
    let objection = objection(alloc, lab, &asked.options, asked.has_texts)?;
    let options = asked.options.clone()?;
    Ok(LandedLine {
        line: asked.line,
        options,
        objection,
        landing: first_from(lines, asked.line),
    })
}

fn land_in(
    alloc: Global,
    lab: &Lab,
    lines: &BTreeSet<u32>,
    asked: &[LineBreakpoint],
) -> Result<Sequence<LandedLine>, AllocError>
    ensures landed { (b : Board) → RepresentsBoard lab.now b
        → IfOk result (λ landed. landed ≡ map (landed_in b lines.now.keys) asked.now) }
    ensures count { IfOk result (λ landed. length landed ≡ length asked.now) }
{
    let mut landed = Sequence::new(alloc);
    for breakpoint in asked {
        landed.push(landed_in(alloc, lab, lines, breakpoint)?)?;
    }
    Ok(landed)
}

/// The breakpoints of the program, each with the first line with code at or below its own.
pub fn landings(
    alloc: Global,
    lab: &Lab,
    asked: &[LineBreakpoint],
) -> Result<Sequence<LandedLine>, AllocError>
    ensures landed { (b : Board) → RepresentsBoard lab.now b
        → IfOk result (λ landed. landed ≡ map (landed_at b) asked.now) }
    ensures count { IfOk result (λ landed. length landed ≡ length asked.now) }
{
    let lines = line_set(alloc, lab)?;
    land_in(alloc, lab, &lines, asked)
}

/// The breakpoints on these lines of the program, which is the source with this number.
pub fn lines_on(
    alloc: Global,
    lab: &Lab,
    number: u32,
    lines: &[LineBreakpoint],
) -> Result<Sequence<PlacedBreakpoint>, AllocError>
    requires number { number ≤ 1025 }
    requires few { length lines.now ≤ 256 }
    ensures { (b : Board) → RepresentsBoard lab.now b
        → IfOk result (λ points. points ≡ lines_on b number lines.now) }
{
    let landed = landings(alloc, lab, lines)?;
    line_points(alloc, number, landed.as_slice())
}

fn label_line(alloc: Global, lab: &Lab, name: &str) -> Result<Option<u32>, AllocError>
    ensures { (b : Board) → RepresentsBoard lab.now b → IfOk result (λ line. line ≡ label_line b name.now) }
{
    match line_of_label(alloc, lab, name)? {
        Some(at) => Ok(Some(at.line)),
        None => Ok(None),
    }
}

fn find_label(
    alloc: Global,
    lab: &Lab,
    function: &FunctionBreakpoint,
) -> Result<FoundLabel, AllocError>
    ensures { (b : Board) → RepresentsBoard lab.now b
        → IfOk result (λ label. label ≡ found_label b function.now) }
{
    let line = label_line(alloc, lab, function.name.as_str())?;
    let objection = objection(alloc, lab, &function.options, function.has_texts)?;
    let options = function.options.clone()?;
    Ok(FoundLabel {
        line,
        options,
        objection,
    })
}

fn find_labels(
    alloc: Global,
    lab: &Lab,
    functions: &[FunctionBreakpoint],
) -> Result<Sequence<FoundLabel>, AllocError>
    ensures found { (b : Board) → RepresentsBoard lab.now b
        → IfOk result (λ labels. labels ≡ map (found_label b) functions.now) }
    ensures count { IfOk result (λ labels. length labels ≡ length functions.now) }
{
    let mut labels = Sequence::new(alloc);
    for function in functions {
        labels.push(find_label(alloc, lab, function)?)?;
    }
    Ok(labels)
}

/// The breakpoints at labels of the program.
pub fn labels_on(
    alloc: Global,
    lab: &Lab,
    functions: &[FunctionBreakpoint],
) -> Result<Sequence<PlacedBreakpoint>, AllocError>
    requires { length functions.now ≤ 256 }
    ensures { (b : Board) → RepresentsBoard lab.now b
        → IfOk result (λ points. points ≡ labels_on b functions.now) }
{
    let labels = find_labels(alloc, lab, functions)?;
    label_points(alloc, labels.as_slice())
}
