//! Marks where a breakpoint stops a run.
ghost use Rattle.std.specs.Prelude.{◌≡◌, ◌==◌, ◌||◌, ◌&&◌, ℕ, [], IfOk};
ghost use Rattle.lab_image.specs.Addresses.{has};
ghost use Rattle.lab_image.specs.Breakpoints.{is_met};
ghost use Rattle.lab_core.specs.Board.{Board};
ghost use Rattle.lab_core.specs.Labs.{RepresentsBoard};
ghost use Rattle.dap_slice.specs.Conditions.{is_there as is_at_address, is_any_at};
ghost use Rattle.dap_search.specs.Scans.{MarksStops};

use dap_slice::conditions::{ConditionalBreakpoint, ConditionalBreakpoints, Trigger};
use lab_core::lab::Lab;
use lab_core::marks::Marks;
use std::alloc::{AllocError, Global};

// Marks an address if a breakpoint is met there.
fn mark(marks: &mut Marks, lab: &Lab, address: u16)
    ensures addresses { (b : Board) → RepresentsBoard lab.now b
        → (a : ℕ) → has marks.new.addresses a
        ≡ (has marks.old.addresses a || (address == a && is_met b.breakpoints b.loads a)) }
    ensures rest { marks.new ≡ record marks.old { addresses = marks.new.addresses } }
{
    if lab.has_breakpoint_at(address) {
        marks.add_address(address);
    }
}

// Marks at all addresses where a breakpoint is met.
fn plain_marks(alloc: Global, lab: &Lab) -> Result<Marks, AllocError>
    ensures { (b : Board) → RepresentsBoard lab.now b → IfOk result (MarksStops [] b) }
{
    let mut marks = Marks::new(alloc)?;
    let mut next = 0u32;
    while next < 65_536 {
        mark(&mut marks, lab, next as u16);
        next += 1;
    }
    Ok(marks)
}

// Marks a breakpoint's address, if it has one: searches don't look at changes.
fn mark_point(marks: &mut Marks, point: &ConditionalBreakpoint)
    ensures addresses { (a : ℕ) → has marks.new.addresses a
        ≡ (has marks.old.addresses a || is_at_address a point.now) }
    ensures rest { marks.new ≡ record marks.old { addresses = marks.new.addresses } }
{
    if let Trigger::Address(address) = point.trigger {
        marks.add_address(address);
    }
}

// Marks the addresses of breakpoints with conditions too.
fn mark_points(marks: &mut Marks, points: &[ConditionalBreakpoint])
    ensures addresses { (a : ℕ) → has marks.new.addresses a
        ≡ (has marks.old.addresses a || is_any_at points.now a) }
    ensures rest { marks.new ≡ record marks.old { addresses = marks.new.addresses } }
{
    for point in points {
        mark_point(marks, point);
    }
}

/// Marks at all addresses where a breakpoint is met or one with a condition is.
pub(crate) fn marks_of(
    alloc: Global,
    lab: &Lab,
    points: &ConditionalBreakpoints,
) -> Result<Marks, AllocError>
    ensures { (b : Board) → RepresentsBoard lab.now b → IfOk result (MarksStops points.now b) }
{
    let mut marks = plain_marks(alloc, lab)?;
    mark_points(&mut marks, points.points());
    Ok(marks)
}
