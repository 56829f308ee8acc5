//! The numbers of the breakpoints at which a run is stopped.
ghost use Rattle.std.specs.Prelude.{◌≡◌, ◌≤◌, ◌+◌, ◌&&◌, map, IfOk, vec_len, vec_capacity};
ghost use Rattle.std.specs.Prelude.{is_none};
ghost use Rattle.lab_core.specs.Board.{Board};
ghost use Rattle.lab_core.specs.Slices.{left_by};
ghost use Rattle.lab_core.specs.Labs.{RepresentsBoard};
ghost use Rattle.dap_slice.specs.Conditions.{holds_on, watched_places};
ghost use Rattle.dap_slice.specs.Hits as hit;
ghost use Rattle.dap_slice.specs.Changes.{watch_between};
ghost use Rattle.dap_slice.specs.Stops.{begins_on, is_on_line, stops_going_back, with_id};
ghost use Rattle.dap_slice.specs.Stops.{stop_ids, back_ids, ids_told, IsRoomFor};

use crate::conditions::{
    ConditionalBreakpoint, ConditionalBreakpoints, Trigger, holds, stops_back,
};
use crate::hits::is_wanted;
use base_text::sequence::Sequence;
use lab_core::answer::SliceOutcome;
use lab_core::lab::Lab;
use lab_core::marks::Watch;
use std::alloc::{AllocError, Global};

// Whether a statement on this line begins at PC.
fn begins_on(lab: &Lab, line: u32) -> bool
    ensures { (b : Board) → RepresentsBoard lab.now b → result ≡ begins_on b line }
{
    match lab.origin_at(lab.regs().pc) {
        None => false,
        Some(origin) => origin.is_first && origin.line == line as usize,
    }
}

// Whether the board's own breakpoint on a line is at PC.
fn is_on_line(lab: &Lab, trigger: Trigger) -> bool
    ensures { (b : Board) → RepresentsBoard lab.now b → result ≡ is_on_line b trigger }
{
    match trigger {
        Trigger::Line(line) => begins_on(lab, line),
        Trigger::Address(_) | Trigger::Change(_) => false,
    }
}

// Whether a breakpoint to which the last step led stops the run.
fn may_stop(lab: &Lab, point: &ConditionalBreakpoint) -> bool
    ensures { (b : Board) → RepresentsBoard lab.now b → result
        ≡ (is_none point.now.log && (hit.is_wanted point.now.hits && holds_on b point.now.condition)) }
{
    point.log.is_none() && is_wanted(point.hits) && holds(lab, &point.condition)
}

// Adds a number, unless it is there, without allocating.
fn push_id(ids: &mut Vec<u32>, id: u32)
    requires { vec_len ids.old + 1 ≤ vec_capacity ids.old }
    ensures items { ids.new.items ≡ with_id ids.old.items id }
    ensures len { vec_len ids.new ≤ vec_len ids.old + 1 }
    ensures capacity { vec_capacity ids.new ≡ vec_capacity ids.old }
{
    if !ids.contains(&id) {
        ids.push_reserved(id);
    }
}

/// The numbers of those that stop the run behind the last step, by what the watches saw of it, without
/// allocating.
pub(crate) fn stop_ids(
    lab: &Lab,
    points: &[ConditionalBreakpoint],
    seen: &[Watch],
    mut ids: Vec<u32>,
) -> Sequence<u32>
    requires { IsRoomFor points.now ids.items (vec_capacity ids) }
    ensures { (was b : Board) → RepresentsBoard lab.now b
        → seen.now ≡ map (watch_between was b) (watched_places points.now)
        → result ≡ stop_ids points.now was b }
{
    let mut watches = seen;
    let mut left = points;
    while let Some((point, later)) = left.split_first() {
        left = later;
        let is_come_to = match point.trigger {
            Trigger::Address(address) => address == lab.regs().pc,
            Trigger::Line(line) => begins_on(lab, line),
            Trigger::Change(_) => {
                let Some((watch, rest)) = watches.split_first() else {
                    return Sequence::from(ids);
                };
                watches = rest;
                watch.before != watch.after
            }
        };
        if is_come_to && may_stop(lab, point) {
            push_id(&mut ids, point.id);
        }
    }
    Sequence::from(ids)
}

/// The numbers of which a run is told that stopped with this outcome, without allocating.
pub(crate) fn ids_told(
    lab: &Lab,
    points: &[ConditionalBreakpoint],
    watches: &[Watch],
    outcome: SliceOutcome,
    ids: Vec<u32>,
) -> Sequence<u32>
    requires { IsRoomFor points.now ids.items (vec_capacity ids) }
    ensures { (was b : Board) → RepresentsBoard lab.now (left_by outcome b)
        → watches.now ≡ map (watch_between was b) (watched_places points.now)
        → result ≡ ids_told points.now was b outcome }
{
    match outcome {
        SliceOutcome::Stop(_) => stop_ids(lab, points, watches, ids),
        SliceOutcome::More | SliceOutcome::Waiting | SliceOutcome::End(_) => Sequence::from(ids),
    }
}

// Whether a breakpoint stops a run that goes back to where the board is.
fn stops_going_back(lab: &Lab, point: &ConditionalBreakpoint) -> bool
    ensures { (b : Board) → RepresentsBoard lab.now b → result ≡ stops_going_back b point.now }
{
    is_on_line(lab, point.trigger) || stops_back(lab, point)
}

impl ConditionalBreakpoints {
    /// The numbers of those that stop a run that goes back to where the board is.
    pub fn back_ids(&self, alloc: Global, lab: &Lab) -> Result<Sequence<u32>, AllocError>
        ensures { (b : Board) → RepresentsBoard lab.now b
            → IfOk result (λ ids. ids ≡ back_ids self.now b) }
    {
        let mut ids = Vec::with_capacity(alloc, self.points.len())?;
        let mut left = self.points.as_slice();
        while let Some((point, later)) = left.split_first() {
            if stops_going_back(lab, point) {
                push_id(&mut ids, point.id);
            }
            left = later;
        }
        Ok(Sequence::from(ids))
    }
}
