//! Hits of a part of a run, counted apart from the breakpoints' own counts.
ghost use Rattle.std.specs.Prelude.{◌≡◌, ◌<◌, length, List, IfOk, slice_index_or, slice_set};
ghost use Rattle.lab_core.specs.Board.{Board};
ghost use Rattle.lab_core.specs.Labs.{RepresentsBoard};
ghost use Rattle.dap_slice.specs.declared.conditions.ConditionalBreakpoint.{ConditionalBreakpoint};
ghost use Rattle.dap_slice.specs.Changes.{IsAfterStep};
ghost use Rattle.dap_slice.specs.Counts.{is_hit, counted_if, after_hits, without_hits};
ghost use Rattle.dap_slice.specs.Tallies.{hits_in, IsTallyOf, less, without_tally};

use crate::conditions::{ConditionalBreakpoint, ConditionalBreakpoints};
use crate::counts::is_hit;
use crate::hits::{Hits, none_yet, once_more};
use lab_core::lab::Lab;
use lab_core::marks::Marks;
use std::alloc::{AllocError, Global};
use std::marker::Model;

/// How often each breakpoint was hit in a part of a run, in their order, if it counts hits.
#[derive(Drop)]
pub struct Tally {
    hits: Vec<Option<Hits>>,
}

impl Model for Tally {
    ghost use Rattle.std.specs.Prelude.{List, Option};
    ghost use Rattle.dap_slice.specs.declared.hits.Hits.{Hits};

    ghost Value = { List (Option Hits) };

    ghost view = { λ t. t.hits.items };
}

// No hits yet of each breakpoint.
fn no_hits(alloc: Global, points: &[ConditionalBreakpoint]) -> Result<Vec<Option<Hits>>, AllocError>
    ensures { IfOk result (λ hits. hits.items ≡ hits_in (without_hits points.now)) }
{
    let mut hits = Vec::new(alloc);
    for point in points {
        hits.push(none_yet(point.hits))?;
    }
    Ok(hits)
}

// Counts the last step for the breakpoint at this place of the list, if it is a hit.
fn count_one(
    lab: &Lab,
    points: &[ConditionalBreakpoint],
    marks: &Marks,
    hits: &mut [Option<Hits>],
    index: usize,
)
    requires { index < length hits.old }
    ensures { (was b : Board) (counted : List ConditionalBreakpoint) (p : ConditionalBreakpoint)
        → RepresentsBoard lab.now b → IsAfterStep points.now was b marks.now
        → IsTallyOf points.now counted hits.old → p ≡ slice_index_or counted index p
        → hits.new ≡ hits_in (slice_set counted index (counted_if (is_hit counted p.id was b) p)) }
{
    let Some(point) = points.get(index) else {
        return;
    };
    if hits[index].is_none() {
        return;
    }
    if is_hit(lab, points, marks, point.id) {
        hits[index] = once_more(hits[index]);
    }
}

// Counts the last step for all breakpoints of which it is a hit.
fn count_step(lab: &Lab, points: &[ConditionalBreakpoint], marks: &Marks, hits: &mut [Option<Hits>])
    ensures { (was b : Board) (counted : List ConditionalBreakpoint) → RepresentsBoard lab.now b
        → IsAfterStep points.now was b marks.now → IsTallyOf points.now counted hits.old
        → IsTallyOf points.now (after_hits counted was b) hits.new }
{
    let mut index = 0;
    while index < hits.len() {
        count_one(lab, points, marks, hits, index);
        index += 1;
    }
}

// A count less another one, or 0.
fn less(hits: Option<Hits>, gone: Option<Hits>) -> Option<Hits>
    ensures { result ≡ less hits gone }
{
    match (hits, gone) {
        (Some(hits), Some(gone)) => Some(Hits {
            condition: hits.condition,
            count: hits.count.saturating_sub(gone.count),
        }),
        _ => hits,
    }
}

// Takes away what the breakpoint at the same place has in a tally.
fn take_away(points: &mut [ConditionalBreakpoint], gone: &[Option<Hits>])
    ensures { points.new ≡ without_tally gone.now points.old }
{
    let end = points.len().min(gone.len());
    let mut index = 0;
    while index < end {
        points[index].hits = less(points[index].hits, gone[index]);
        index += 1;
    }
}

impl Tally {
    /// No hits yet of these breakpoints.
    pub fn new(alloc: Global, points: &ConditionalBreakpoints) -> Result<Tally, AllocError>
        ensures { IfOk result (IsTallyOf points.now (without_hits points.now)) }
    {
        let hits = no_hits(alloc, points.points())?;
        Ok(Tally { hits })
    }

    /// Counts the last step for all breakpoints of which it is a hit. They must be those for which the tally
    /// was made, and the marks must be those of a slice that ended with that step.
    pub fn count(&mut self, lab: &Lab, points: &ConditionalBreakpoints, marks: &Marks)
        ensures { (was b : Board) (counted : List ConditionalBreakpoint) → RepresentsBoard lab.now b
            → IsAfterStep points.now was b marks.now → IsTallyOf points.now counted self.old
            → IsTallyOf points.now (after_hits counted was b) self.new }
    {
        count_step(lab, points.points(), marks, &mut self.hits);
    }
}

impl ConditionalBreakpoints {
    /// Takes the hits of a tally away from the counts.
    pub fn take_away(&mut self, gone: &Tally)
        ensures { self.new ≡ without_tally gone.now self.old }
    {
        take_away(&mut self.points, &gone.hits);
    }
}
