//! Counts of hits.
ghost use Rattle.std.specs.Prelude.{◌≡◌, ◌&&◌, ◌<◌, ◌≤◌, ◌==◌, length, nat_lt, if◌then◌else◌};
ghost use Rattle.std.specs.Prelude.{slice_index_or, slice_set, is_some};
ghost use Rattle.std.specs.List.{list_any};
ghost use Rattle.lab_core.specs.Board.{Board};
ghost use Rattle.lab_core.specs.Labs.{RepresentsBoard};
ghost use Rattle.dap_slice.specs.declared.conditions.ConditionalBreakpoint.{ConditionalBreakpoint};
ghost use Rattle.dap_slice.specs.Conditions.{holds_on};
ghost use Rattle.dap_slice.specs.Changes.{IsAfterStep};
ghost use Rattle.dap_slice.specs.Counts.{is_hit, counted_if, after_hits, without_hits};
ghost use Rattle.dap_slice.specs.Counts.{hits_of, with_count, hits_on, with_counts};

use crate::conditions::{ConditionalBreakpoint, ConditionalBreakpoints, Trigger, holds};
use crate::hits::{Hits, none_yet, once_more};
use lab_core::lab::Lab;
use lab_core::marks::Marks;

// Whether the breakpoint has this number and its condition is true.
fn is_of(lab: &Lab, point: &ConditionalBreakpoint, id: u32) -> bool
    ensures { (b : Board) → RepresentsBoard lab.now b
        → result ≡ (point.now.id == id && holds_on b point.now.condition) }
{
    point.id == id && holds(lab, &point.condition)
}

/// Whether the last step is a hit of the breakpoint with this number.
pub(crate) fn is_hit(lab: &Lab, points: &[ConditionalBreakpoint], marks: &Marks, id: u32) -> bool
    ensures { (was b : Board) → RepresentsBoard lab.now b → IsAfterStep points.now was b marks.now
        → result ≡ is_hit points.now id was b }
{
    let pc = lab.regs().pc;
    let mut watches = marks.watches();
    let mut left = points;
    while let Some((point, later)) = left.split_first() {
        left = later;
        let is_come_to = match point.trigger {
            Trigger::Address(address) => address == pc,
            Trigger::Change(_) => {
                let Some((watch, rest)) = watches.split_first() else {
                    return false;
                };
                watches = rest;
                watch.before != watch.after
            }
            Trigger::Line(_) => false,
        };
        if is_come_to && is_of(lab, point, id) {
            return true;
        }
    }
    false
}

// Counts the last step for the breakpoint at this place of the list, if it is a hit.
fn count_one(lab: &Lab, points: &mut [ConditionalBreakpoint], marks: &Marks, index: usize)
    requires { index < length points.old }
    ensures { (was b : Board) (p : ConditionalBreakpoint) → RepresentsBoard lab.now b
        → IsAfterStep points.old was b marks.now → p ≡ slice_index_or points.old index p
        → points.new ≡ slice_set points.old index (counted_if (is_hit points.old p.id was b) p) }
{
    let id = points[index].id;
    let hits = points[index].hits;
    if hits.is_some() && is_hit(lab, points, marks, id) {
        points[index].hits = once_more(hits);
    }
}

// Counts the last step for all breakpoints of which it is a hit.
fn count_step(lab: &Lab, points: &mut [ConditionalBreakpoint], marks: &Marks)
    ensures { (was b : Board) → RepresentsBoard lab.now b → IsAfterStep points.old was b marks.now
        → points.new ≡ after_hits points.old was b }
{
    let mut index = 0;
    while index < points.len() {
        count_one(lab, points, marks, index);
        index += 1;
    }
}

/// Counts the last of so many steps, if there was one, for all breakpoints of which it is a hit.
pub(crate) fn count_hits(
    lab: &Lab,
    points: &mut [ConditionalBreakpoint],
    marks: &Marks,
    executed: u16,
)
    ensures { (was b : Board) → RepresentsBoard lab.now b → IsAfterStep points.old was b marks.now
        → points.new ≡ (if nat_lt 0 executed then after_hits points.old was b else points.old) }
{
    if 0 < executed {
        count_step(lab, points, marks);
    }
}

// What the breakpoint with this number has counted, if it counts hits.
fn hits_of(id: u32, points: &[ConditionalBreakpoint]) -> Option<Hits>
    ensures { result ≡ hits_of id points.now }
{
    let mut left = points;
    while let Some((point, later)) = left.split_first() {
        if point.id == id {
            return point.hits;
        }
        left = later;
    }
    None
}

fn with_count(was: Option<Hits>, hits: Option<Hits>) -> Option<Hits>
    ensures { result ≡ with_count was hits }
{
    match (was, hits) {
        (Some(was), Some(hits)) => Some(Hits {
            condition: hits.condition,
            count: was.count,
        }),
        _ => hits,
    }
}

// The hits of a breakpoint that counts on as the old one with its number, unless it is of the list with this
// number.
fn hits_on(
    number: u32,
    old: &[ConditionalBreakpoint],
    point: &ConditionalBreakpoint,
) -> Option<Hits>
    requires { number ≤ 1026 }
    ensures { result ≡ hits_on number old.now point.now }
{
    let before = 256 * number;
    if before < point.id && point.id <= before + 256 {
        point.hits
    } else {
        with_count(hits_of(point.id, old), point.hits)
    }
}

impl ConditionalBreakpoints {
    /// Whether one of them counts its hits.
    pub fn counts_hits(&self) -> bool
        ensures { result ≡ list_any (λ p. is_some p.hits) self.now }
    {
        for point in &self.points {
            if point.hits.is_some() {
                return true;
            }
        }
        false
    }

    /// Counts on from the old breakpoints with the same numbers, but for those of the list with this number,
    /// which were set.
    pub fn keep_counts(&mut self, number: u32, old: &ConditionalBreakpoints)
        requires { number ≤ 1026 }
        ensures { self.new ≡ with_counts number old.now self.old }
    {
        for point in self.points.iter_mut() {
            point.hits = hits_on(number, old.points(), point);
        }
    }

    /// Counts the hits from now on, as if there were none before.
    pub fn forget_hits(&mut self)
        ensures { self.new ≡ without_hits self.old }
    {
        for point in self.points.iter_mut() {
            point.hits = none_yet(point.hits);
        }
    }
}
