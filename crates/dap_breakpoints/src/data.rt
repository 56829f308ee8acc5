//! Breakpoints on data.
ghost use Rattle.std.specs.Prelude.{◌≡◌, ◌≤◌, ◌++◌, length, map, IfOk, OnOk, IfSome};
ghost use Rattle.std.specs.List.{filter_map};
ghost use Rattle.lab_core.specs.Board.{Board};
ghost use Rattle.lab_core.specs.Labs.{RepresentsBoard};
ghost use Rattle.dap_slice.specs.declared.conditions.Trigger.TheVariants.{Change};
ghost use Rattle.dap_conditions.specs.Conditions.{stop_by};
ghost use Rattle.dap_breakpoints.specs.Places.{IsInMemory};
ghost use Rattle.dap_breakpoints.specs.Data.{unknown_note, data_objection, checked_on, points_on, watches_at};
ghost use Rattle.dap_breakpoints.specs.Data.{watches_of, watches_by, watches_on};

use crate::place::DataPlace;
use base_text::sequence::Sequence;
use base_text::text::Text;
use dap_conditions::conditions::{objection, push_point, stop_by};
use dap_messages::message::{BreakpointNote, PlacedBreakpoint};
use dap_points::placed::{CheckedData, data_points as placed_points};
use dap_requests::request::DataBreakpoint;
use dap_slice::conditions::{ConditionalBreakpoints, Trigger};
use lab_core::lab::Lab;
use lab_shown::place::Place;
use std::alloc::{AllocError, Global};

// ---- what there is to object to one

fn unknown_data(alloc: Global, id: &str) -> Result<BreakpointNote, AllocError>
    ensures { IfOk result (λ note. note ≡ unknown_note id.now) }
{
    let mut text = String::new(alloc);
    text.push_str("no register or bytes: ")?;
    text.push_str(id)?;
    Ok(BreakpointNote::Wrong(Text::from(text)))
}

fn objection_to(
    alloc: Global,
    lab: &Lab,
    breakpoint: &DataBreakpoint,
) -> Result<Option<BreakpointNote>, AllocError>
    ensures { (b : Board) → RepresentsBoard lab.now b
        → IfOk result (λ note. note ≡ data_objection b breakpoint.now) }
{
    if !breakpoint.is_write {
        let text = Text::copy_of(alloc, "only writes are watched")?;
        return Ok(Some(BreakpointNote::Wrong(text)));
    }
    match DataPlace::from_id(breakpoint.data_id.as_str()) {
        None => Ok(Some(unknown_data(alloc, breakpoint.data_id.as_str())?)),
        Some(_) => objection(alloc, lab, &breakpoint.options, breakpoint.has_texts),
    }
}

// ---- as an editor is told of them

fn checked_on(
    alloc: Global,
    lab: &Lab,
    breakpoint: &DataBreakpoint,
) -> Result<CheckedData, AllocError>
    ensures { (b : Board) → RepresentsBoard lab.now b
        → IfOk result (λ checked. checked ≡ checked_on b breakpoint.now) }
{
    let objection = objection_to(alloc, lab, breakpoint)?;
    let options = breakpoint.options.clone()?;
    Ok(CheckedData { options, objection })
}

fn all_checked(
    alloc: Global,
    lab: &Lab,
    breakpoints: &[DataBreakpoint],
) -> Result<Sequence<CheckedData>, AllocError>
    ensures checked { (b : Board) → RepresentsBoard lab.now b
        → IfOk result (λ all. all ≡ map (checked_on b) breakpoints.now) }
    ensures count { IfOk result (λ all. length all ≡ length breakpoints.now) }
{
    let mut all = Sequence::new(alloc);
    for breakpoint in breakpoints {
        all.push(checked_on(alloc, lab, breakpoint)?)?;
    }
    Ok(all)
}

/// Breakpoints on data, as an editor is told of them.
pub fn data_points(
    alloc: Global,
    lab: &Lab,
    breakpoints: &[DataBreakpoint],
) -> Result<Sequence<PlacedBreakpoint>, AllocError>
    requires { length breakpoints.now ≤ 256 }
    ensures { (b : Board) → RepresentsBoard lab.now b
        → IfOk result (λ points. points ≡ points_on b breakpoints.now) }
{
    let checked = all_checked(alloc, lab, breakpoints)?;
    placed_points(alloc, checked.as_slice())
}

// ---- where they stop a run

fn push_places(
    alloc: Global,
    points: &mut ConditionalBreakpoints,
    point: &PlacedBreakpoint,
    places: &[Place],
) -> Result<(), AllocError>
    ensures { OnOk result (points.new ≡ points.old
        ++ filter_map (λ place. stop_by point.now.id (Change place) point.now.options) places.now) }
{
    let mut left = places;
    while let Some((place, later)) = left.split_first() {
        let stop = stop_by(alloc, point.id, Trigger::Change(*place), &point.options)?;
        push_point(points, stop)?;
        left = later;
    }
    Ok(())
}

fn push_at(
    alloc: Global,
    points: &mut ConditionalBreakpoints,
    point: &PlacedBreakpoint,
    place: Option<DataPlace>,
) -> Result<(), AllocError>
    requires { IfSome place IsInMemory }
    ensures { OnOk result (points.new ≡ points.old ++ watches_at point.now place) }
{
    let Some(place) = place else {
        return Ok(());
    };
    let places = place.places(alloc)?;
    push_places(alloc, points, point, places.as_slice())
}

// Adds the places of a breakpoint, if it is verified.
fn push_breakpoint(
    alloc: Global,
    points: &mut ConditionalBreakpoints,
    breakpoint: &DataBreakpoint,
    point: &PlacedBreakpoint,
) -> Result<(), AllocError>
    ensures { OnOk result (points.new ≡ points.old ++ watches_of breakpoint.now point.now) }
{
    if !point.is_verified {
        return Ok(());
    }
    let place = DataPlace::from_id(breakpoint.data_id.as_str());
    push_at(alloc, points, point, place)
}

fn push_all(
    alloc: Global,
    points: &mut ConditionalBreakpoints,
    breakpoints: &[DataBreakpoint],
    placed: &[PlacedBreakpoint],
) -> Result<(), AllocError>
    ensures { OnOk result (points.new ≡ points.old ++ watches_by breakpoints.now placed.now) }
{
    let mut left = breakpoints;
    let mut told = placed;
    while let (Some((breakpoint, later)), Some((point, others))) = (
        left.split_first(),
        told.split_first(),
    ) {
        push_breakpoint(alloc, points, breakpoint, point)?;
        left = later;
        told = others;
    }
    Ok(())
}

/// Adds the places where breakpoints on data stop a run: those of verified ones.
pub fn push_watches(
    alloc: Global,
    lab: &Lab,
    points: &mut ConditionalBreakpoints,
    breakpoints: &[DataBreakpoint],
) -> Result<(), AllocError>
    requires { length breakpoints.now ≤ 256 }
    ensures { (b : Board) → RepresentsBoard lab.now b
        → OnOk result (points.new ≡ points.old ++ watches_on b breakpoints.now) }
{
    let placed = data_points(alloc, lab, breakpoints)?;
    push_all(alloc, points, breakpoints, placed.as_slice())
}
