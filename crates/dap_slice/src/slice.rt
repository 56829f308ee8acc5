//! Slices of at most so many steps.
ghost use Rattle.std.specs.Prelude.{◌≡◌, ◌≢◌, ◌≤◌, ℕ, List, length, false, Ok, IfOk, OnErr};
ghost use Rattle.std.specs.Prelude.{vec_capacity};
ghost use Rattle.i80_base.specs.declared.ports.PortOperation.{PortOperation};
ghost use Rattle.lab_core.specs.declared.answer.SliceOutcome.{SliceOutcome};
ghost use Rattle.lab_core.specs.declared.run_state.RunState.TheVariants.{Running};
ghost use Rattle.lab_core.specs.Board.{Board};
ghost use Rattle.lab_core.specs.Slices.{left_by};
ghost use Rattle.lab_core.specs.SliceEnds.{slice_from};
ghost use Rattle.lab_core.specs.Labs.{RepresentsBoard};
ghost use Rattle.dap_slice.specs.Changes.{IsAfterStep};
ghost use Rattle.dap_slice.specs.Conditions.{is_any_looked_for};
ghost use Rattle.dap_slice.specs.Stops.{IsRoomFor};
ghost use Rattle.dap_slice.specs.SliceEnds.{MakesSlice, IsBoardSlice, CountsHits, HasFew};
ghost use Rattle.dap_slice.specs.SliceEnds.{outcome_at, outcome_if_met, after_end};

use crate::changes::{change_told, first_change};
use crate::conditions::{
    ConditionalBreakpoint, ConditionalBreakpoints, is_any_looked_for, is_any_met,
};
use crate::counts::count_hits;
use crate::stops::ids_told;
use base_text::sequence::Sequence;
use i80_devs::traffic::Traffic;
use lab_core::answer::{Answer, SliceOutcome, Stop};
use lab_core::event::Event;
use lab_core::fault::EventFault;
use lab_core::lab::Lab;
use lab_core::marks::Marks;
use lab_shown::place::PlaceChange;
use std::alloc::{AllocError, Global};

/// What a slice did.
#[derive(Drop)]
pub struct SliceResult {
    /// The number of steps.
    pub executed: u16,
    pub traffic: Traffic,
    pub outcome: SliceOutcome,
    /// The last step's change, if the run is stopped there.
    pub change: Option<PlaceChange>,
    /// The numbers of the breakpoints that stop the run there, each once.
    pub ids: Sequence<u32>,
}

// The board's own slice.
#[derive(Drop)]
struct BoardSlice {
    executed: u16,
    traffic: Traffic,
    outcome: SliceOutcome,
}

// The slice that a board answers with.
fn slice_in(answer: Result<Answer, EventFault>) -> Result<BoardSlice, AllocError>
    ensures ok { IfOk result (λ s. answer ≡ Ok (Answer.Sliced s.executed s.traffic s.outcome)) }
    ensures err { OnErr result ((k : ℕ) (operations : List PortOperation) (ending : SliceOutcome)
        → answer ≢ Ok (Answer.Sliced k operations ending)) }
{
    match answer {
        Ok(
            Answer::Sliced {
                executed,
                traffic,
                outcome,
            },
        ) => Ok(BoardSlice {
            executed,
            traffic,
            outcome,
        }),
        other => {
            drop(other);
            Err(AllocError)
        }
    }
}

// Makes the board's own slice, which tests nothing after a step. Its errors are those of `slice`.
fn board_slice(lab: &mut Lab, most: u16) -> Result<BoardSlice, AllocError>
    requires { (1 ≤ most) × (most ≤ 4096) }
    ensures made { (b : Board) → RepresentsBoard lab.old b → b.run ≡ Running
        → IfOk result (λ s. IsBoardSlice (slice_from most 0 b) b s
        × RepresentsBoard lab.new (after_end (slice_from most 0 b) b)) }
    ensures few { (b : Board) → RepresentsBoard lab.old b → IfOk result (λ s. length s.traffic ≤ 4096) }
    ensures err { (b : Board) → RepresentsBoard lab.old b → OnErr result (lab.new ≡ lab.old) }
{
    let answer = lab.apply(&Event::Slice(most));
    slice_in(answer)
}

// Makes a slice where no breakpoint is looked for.
fn plain_slice(
    lab: &mut Lab,
    points: &[ConditionalBreakpoint],
    most: u16,
    ids: Vec<u32>,
) -> Result<SliceResult, AllocError>
    requires most { (1 ≤ most) × (most ≤ 4096) }
    requires plain { is_any_looked_for points.now ≡ false }
    requires room { IsRoomFor points.now ids.items (vec_capacity ids) }
    ensures made { MakesSlice points.now most lab.old result lab.new }
    ensures few { (b : Board) → RepresentsBoard lab.old b → IfOk result (λ s. length s.traffic ≤ 4096) }
    ensures err { (b : Board) → RepresentsBoard lab.old b → OnErr result (lab.new ≡ lab.old) }
{
    let BoardSlice {
        executed,
        traffic,
        outcome,
    } = board_slice(lab, most)?;
    let ids = ids_told(lab, points, &[], outcome, ids);
    Ok(SliceResult {
        executed,
        traffic,
        outcome,
        change: None,
        ids,
    })
}

// Stops a run that goes on, if it is at a breakpoint whose condition is true, or the last step's change meets
// one.
fn stop_if_met(lab: &mut Lab, points: &[ConditionalBreakpoint], marks: &Marks) -> SliceOutcome
    ensures { (was b : Board) → RepresentsBoard lab.old b → b.run ≡ Running
        → IsAfterStep points.now was b marks.now
        → (result ≡ outcome_at points.now was b) × RepresentsBoard lab.new (left_by result b) }
{
    if !is_any_met(lab, points) && first_change(lab, points, marks).is_none() {
        return SliceOutcome::More;
    }
    let answer = lab.apply(&Event::Pause);
    let is_stopped = answer.is_ok();
    drop(answer);
    if is_stopped {
        SliceOutcome::Stop(Stop::Breakpoint)
    } else {
        SliceOutcome::More
    }
}

// How a slice ends that has come to this outcome: if it is `More`, a breakpoint may be met.
fn end_at(
    lab: &mut Lab,
    points: &[ConditionalBreakpoint],
    marks: &Marks,
    outcome: SliceOutcome,
) -> SliceOutcome
    ensures { (was b : Board) → b.run ≡ Running → IsAfterStep points.now was b marks.now
        → RepresentsBoard lab.old (left_by outcome b)
        → (result ≡ outcome_if_met points.now was b outcome)
        × RepresentsBoard lab.new (left_by result b) }
{
    match outcome {
        SliceOutcome::More => stop_if_met(lab, points, marks),
        other => other,
    }
}

impl ConditionalBreakpoints {
    /// Makes a slice of at most `most` steps, which ends where the run comes to one of these breakpoints or
    /// changes a place that one watches, and stops it there if the condition is true. A board without a run
    /// that goes on gives the same error as one that runs out of memory.
    pub fn slice(
        &mut self,
        alloc: Global,
        lab: &mut Lab,
        most: u16,
    ) -> Result<SliceResult, AllocError>
        requires { (1 ≤ most) × (most ≤ 4096) × ((b : Board) × RepresentsBoard lab.old b) }
        ensures made { MakesSlice self.old most lab.old result lab.new }
        ensures hits { CountsHits self.old lab.old result self.new }
        ensures rest { IfOk result HasFew × OnErr result ((self.new ≡ self.old) × (lab.new ≡ lab.old)) }
    {
        let ids = Vec::with_capacity(alloc, self.points.len())?;
        if is_any_looked_for(&self.points) {
            self.slice_to_point(lab, most, ids)
        } else {
            plain_slice(lab, &self.points, most, ids)
        }
    }

    // Makes a slice that tests after each step whether the run has come to a breakpoint or changed a place.
    fn slice_to_point(
        &mut self,
        lab: &mut Lab,
        most: u16,
        ids: Vec<u32>,
    ) -> Result<SliceResult, AllocError>
        requires most { (1 ≤ most) × (most ≤ 4096) }
        requires board { (b : Board) × RepresentsBoard lab.old b }
        requires room { IsRoomFor self.old ids.items (vec_capacity ids) }
        ensures made { MakesSlice self.old most lab.old result lab.new }
        ensures hits { CountsHits self.old lab.old result self.new }
        ensures few { (b : Board) → RepresentsBoard lab.old b → IfOk result (λ s. length s.traffic ≤ 4096) }
        ensures err { (b : Board) → RepresentsBoard lab.old b
            → OnErr result ((self.new ≡ self.old) × (lab.new ≡ lab.old)) }
    {
        let answer = lab.slice_to(most, &mut self.marks);
        let slice = slice_in(answer)?;
        count_hits(lab, &mut self.points, &self.marks, slice.executed);
        let points = self.points.as_slice();
        let outcome = end_at(lab, points, &self.marks, slice.outcome);
        let change = change_told(lab, points, &self.marks, outcome);
        let ids = ids_told(lab, points, self.marks.watches(), outcome, ids);
        let BoardSlice {
            executed,
            traffic,
            ..
        } = slice;
        Ok(SliceResult {
            executed,
            traffic,
            outcome,
            change,
            ids,
        })
    }
}
