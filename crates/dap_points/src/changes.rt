//! Breakpoints that aren't what they were.
ghost use Rattle.std.specs.Prelude.{◌≡◌, ◌++◌, drop, IfOk, OnOk, ◌==◌};
ghost use Rattle.dap_points.specs.Changes.{is_same_note, is_same_option, is_same_point, if_changed};
ghost use Rattle.dap_points.specs.Changes.{changed_points};

use crate::note::is_same_note;
use base_text::sequence::Sequence;
use dap_messages::message::{BreakpointNote, PlacedBreakpoint};
use std::alloc::{AllocError, Global};

fn is_same_message(first: &Option<BreakpointNote>, second: &Option<BreakpointNote>) -> bool
    ensures { result ≡ is_same_option is_same_note first.now second.now }
{
    match (first, second) {
        (None, None) => true,
        (Some(a), Some(b)) => is_same_note(a, b),
        _ => false,
    }
}

fn is_same_line(first: Option<u32>, second: Option<u32>) -> bool
    ensures { result ≡ is_same_option (λ line line'. line == line') first second }
{
    match (first, second) {
        (None, None) => true,
        (Some(a), Some(b)) => a == b,
        _ => false,
    }
}

fn is_same_point(first: &PlacedBreakpoint, second: &PlacedBreakpoint) -> bool
    ensures { result ≡ is_same_point first.now second.now }
{
    first.is_verified == second.is_verified
        && is_same_line(first.line, second.line)
        && is_same_message(&first.note, &second.note)
}

fn copy_point(point: &PlacedBreakpoint) -> Result<PlacedBreakpoint, AllocError>
    ensures { IfOk result (λ copy. copy ≡ point.now) }
{
    let note = point.note.clone()?;
    let options = point.options.clone()?;
    Ok(PlacedBreakpoint {
        id: point.id,
        line: point.line,
        address: point.address,
        options,
        is_verified: point.is_verified,
        note,
    })
}

// Adds a breakpoint, unless the first of those before is the same.
fn push_changed(
    points: &mut Sequence<PlacedBreakpoint>,
    before: &[PlacedBreakpoint],
    point: &PlacedBreakpoint,
) -> Result<(), AllocError>
    ensures { OnOk result (points.new ≡ points.old ++ if_changed before.now point.now) }
{
    match before.first() {
        Some(first) if is_same_point(first, point) => Ok(()),
        _ => points.push(copy_point(point)?),
    }
}

// All but the first.
fn without_first(points: &[PlacedBreakpoint]) -> &[PlacedBreakpoint]
    ensures { result.now ≡ drop 1 points.now }
{
    match points.split_first() {
        None => points,
        Some((_, later)) => later,
    }
}

/// The breakpoints that aren't what they were.
pub fn changed_points(
    alloc: Global,
    before: &[PlacedBreakpoint],
    after: &[PlacedBreakpoint],
) -> Result<Sequence<PlacedBreakpoint>, AllocError>
    ensures { IfOk result (λ points. points ≡ changed_points before.now after.now) }
{
    let mut points = Sequence::new(alloc);
    let mut before_left = before;
    let mut left = after;
    while let Some((point, later)) = left.split_first() {
        push_changed(&mut points, before_left, point)?;
        before_left = without_first(before_left);
        left = later;
    }
    Ok(points)
}
