//! Changes of watched places.
ghost use Rattle.std.specs.Prelude.{◌≡◌, ◌&&◌, None, if◌then◌else◌};
ghost use Rattle.lab_core.specs.Board.{Board};
ghost use Rattle.lab_core.specs.Slices.{left_by};
ghost use Rattle.lab_core.specs.Labs.{RepresentsBoard};
ghost use Rattle.dap_slice.specs.Hits.{is_wanted};
ghost use Rattle.dap_slice.specs.Conditions.{holds_on};
ghost use Rattle.dap_slice.specs.Changes as changes;
ghost use Rattle.dap_slice.specs.Changes.{first_change, IsAfterStep};
ghost use Rattle.dap_slice.specs.SliceEnds.{change_told};

use crate::conditions::{ConditionalBreakpoint, Trigger, holds};
use crate::hits::is_wanted;
use lab_core::answer::SliceOutcome;
use lab_core::lab::Lab;
use lab_core::marks::{Marks, Watch};
use lab_shown::place::PlaceChange;

// The change that a watch saw at the last step, which was made at the address `by`.
fn change_in(watch: &Watch, by: u16) -> Option<PlaceChange>
    ensures { result ≡ changes.change_in watch.now by }
{
    if watch.before == watch.after {
        return None;
    }
    Some(PlaceChange {
        place: watch.place,
        before: watch.before,
        after: watch.after,
        by,
    })
}

// The same, if the watch's breakpoint acts at this hit and its condition is true.
fn change_on(
    lab: &Lab,
    point: &ConditionalBreakpoint,
    watch: &Watch,
    by: u16,
) -> Option<PlaceChange>
    ensures { (b : Board) → RepresentsBoard lab.now b → result
        ≡ (if is_wanted point.now.hits && holds_on b point.now.condition
        then changes.change_in watch.now by else None) }
{
    if is_wanted(point.hits) && holds(lab, &point.condition) {
        change_in(watch, by)
    } else {
        None
    }
}

/// The last step's change that meets one of these breakpoints, the first if there are more.
pub(crate) fn first_change(
    lab: &Lab,
    points: &[ConditionalBreakpoint],
    marks: &Marks,
) -> Option<PlaceChange>
    ensures { (was b : Board) → RepresentsBoard lab.now b → IsAfterStep points.now was b marks.now
        → result ≡ first_change points.now was b }
{
    let by = marks.stepped_from();
    let mut watches = marks.watches();
    let mut left = points;
    while let Some((point, later)) = left.split_first() {
        left = later;
        if let Trigger::Change(_) = point.trigger {
            let Some((watch, rest)) = watches.split_first() else {
                return None;
            };
            watches = rest;
            let change = change_on(lab, point, watch, by);
            if change.is_some() {
                return change;
            }
        }
    }
    None
}

/// The change of which a run is told that stopped with this outcome.
pub(crate) fn change_told(
    lab: &Lab,
    points: &[ConditionalBreakpoint],
    marks: &Marks,
    outcome: SliceOutcome,
) -> Option<PlaceChange>
    ensures { (was b : Board) → RepresentsBoard lab.now (left_by outcome b)
        → IsAfterStep points.now was b marks.now → result ≡ change_told points.now was b outcome }
{
    match outcome {
        SliceOutcome::Stop(_) => first_change(lab, points, marks),
        SliceOutcome::More | SliceOutcome::Waiting | SliceOutcome::End(_) => None,
    }
}
