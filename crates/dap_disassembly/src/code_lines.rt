//! The lines of a program on which statements with bytes begin.
ghost use Rattle.std.specs.Prelude.{◌≡◌, filter, nat_le, ◌&&◌, IfOk, OnOk};
ghost use Rattle.lab_core.specs.Board.{Board};
ghost use Rattle.lab_core.specs.Labs.{RepresentsBoard};
ghost use Rattle.dap_disassembly.specs.CodeLines.{line_at, with_line, code_lines, locations};

use crate::target::{ADDRESSES, target_at};
use base_text::sequence::Sequence;
use lab_core::lab::Lab;
use std::alloc::{AllocError, Global};
use std::collections::BTreeSet;

fn line_at(lab: &Lab, address: u16) -> Option<u32>
    ensures { (b : Board) → RepresentsBoard lab.now b → result ≡ line_at b address }
{
    Some(target_at(lab, 0, address)?.line)
}

fn insert_line(lines: &mut BTreeSet<u32>, line: Option<u32>) -> Result<(), AllocError>
    ensures { OnOk result (lines.new.keys ≡ with_line line lines.old.keys) }
{
    if let Some(line) = line {
        if lines.insert(line).is_err() {
            return Err(AllocError);
        }
    }
    Ok(())
}

// All of them, each once. Every statement on a program's board is the program's own.
#[tactic(auto, unfolding(crate::specs::CodeLines::code_lines))]
pub fn line_set(alloc: Global, lab: &Lab) -> Result<BTreeSet<u32>, AllocError>
    ensures { (b : Board) → RepresentsBoard lab.now b → IfOk result (λ lines. lines.keys ≡ code_lines b) }
{
    let mut lines = BTreeSet::new(alloc);
    for address in 0..ADDRESSES {
        insert_line(&mut lines, line_at(lab, address as u16))?;
    }
    Ok(lines)
}

fn lines_between(
    alloc: Global,
    lines: &BTreeSet<u32>,
    first: u32,
    last: u32,
) -> Result<Sequence<u32>, AllocError>
    ensures { IfOk result (λ found. found
        ≡ filter (λ line. nat_le first line && nat_le line last) lines.now.keys) }
{
    let mut found = Sequence::new(alloc);
    for line in lines {
        if first <= *line && *line <= last {
            found.push(*line)?;
        }
    }
    Ok(found)
}

/// The lines between two lines on which statements with bytes begin.
pub fn locations(
    alloc: Global,
    lab: &Lab,
    first: u32,
    last: u32,
) -> Result<Sequence<u32>, AllocError>
    ensures { (b : Board) → RepresentsBoard lab.now b
        → IfOk result (λ lines. lines ≡ locations first last b) }
{
    let lines = line_set(alloc, lab)?;
    lines_between(alloc, &lines, first, last)
}
