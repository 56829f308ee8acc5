//! Slices up to a mark.
ghost use Rattle.std.specs.Prelude.{◌≡◌, ◌+◌, ◌-◌, ◌<◌, ◌≤◌, ◌⊎◌, ℕ, true, None, Err, IsSome, is_some, OnErr};
ghost use Rattle.lab_core.specs.Board.{Board};
ghost use Rattle.lab_core.specs.Slices.{IsSlice, after_steps, traffic_of, left_by};
ghost use Rattle.lab_core.specs.Slices.{reason_before_fetch};
ghost use Rattle.lab_core.specs.Labs.{LabState, RepresentsBoard, RepresentsDuringSlice, in_slice};
ghost use Rattle.lab_core.specs.Labs.{Watches, ComputesIn};
ghost use Rattle.lab_core.specs.Labs.{BurstMayBegin, IsInBurst};
ghost use Rattle.lab_core.specs.Labs.{MakesAtMost, GoesFar};
ghost use Rattle.lab_core.specs.Marks.{SlicesTo, Leaves, first_mark, marks_after, IsKept, PassesIn, is_at};
ghost use Rattle.lab_core.specs.Marks.{last_site};

use crate::answer::{Answer, SliceOutcome};
use crate::cold::cold_path;
use crate::fault::EventFault;
use crate::lab::burst::BurstStep;
use crate::lab::{Context, Lab};
use crate::marks::Marks;
use crate::run_state::RunState;
use i80_exec::machine::Machine;
use std::mem;

impl Lab {
    /// Makes a slice of at most `n` steps that ends at the first mark. It is like any other slice: a
    /// pending Step continues through it, and it can end earlier. `marks` then has the watched values
    /// before and after the last step, and where PC was before it. Fails with `NotRunning` unless the run
    /// is running, and with `OutOfMemory`; nothing has changed then.
    pub fn slice_to(&mut self, n: u16, marks: &mut Marks) -> Result<Answer, EventFault>
        ensures applied { SlicesTo marks.old n self.old result self.new }
        ensures marks { Leaves n self.old result marks.old marks.new }
        ensures err { OnErr result ((self.new ≡ self.old) × (marks.new ≡ marks.old)) }
        ensures memory { result ≡ Err EventFault.OutOfMemory → self.old.run ≡ RunState.Running }
    {
        match self.run_state {
            RunState::NoRun | RunState::Stopped => Err(EventFault::NotRunning),
            RunState::Running => {
                self.context.devices.reserve_out(n.into())?;
                let (executed, outcome) = self.run_to(n, marks);
                let traffic = self.context.devices.take_out();
                Ok(Answer::Sliced {
                    executed,
                    traffic,
                    outcome,
                })
            }
        }
    }

    // The slice's steps.
    fn run_to(&mut self, n: u16, marks: &mut Marks) -> (u16, SliceOutcome)
        requires { n ≤ self.old.devices.spare }
        ensures slice { (b : Board) → RepresentsBoard self.old b
            → IsSlice (first_mark marks.old n b) b result.0 result.1 }
        ensures represents { (b : Board) → RepresentsBoard self.old b
            → RepresentsDuringSlice self.new (left_by result.1 (after_steps result.0 b)) (traffic_of
            result.0 b) }
        ensures marks { (b : Board) → RepresentsBoard self.old b
            → marks.new ≡ marks_after result.0 b marks.old }
    {
        marks.begin(&self.machine);
        let mut site = self.machine.pc();
        let (executed, outcome) = self.steps_to(n, marks, &mut site);
        marks.finish(&self.machine, executed, site);
        self.leave(outcome);
        (executed, outcome)
    }

    fn steps_to(&mut self, n: u16, marks: &Marks, site: &mut u16) -> (u16, SliceOutcome)
        requires room { n ≤ self.old.devices.spare }
        requires kept { IsKept self.old.machine marks.now }
        ensures slice { (b : Board) → RepresentsBoard self.old b
            → IsSlice (first_mark marks.now n b) b result.0 result.1 }
        ensures represents { (b : Board) → RepresentsBoard self.old b
            → RepresentsDuringSlice self.new (after_steps result.0 b) (traffic_of result.0 b) }
        ensures kept { (b : Board) → RepresentsBoard self.old b
            → IsKept (after_steps (result.0 - 1) b).machine marks.now }
        ensures site { (b : Board) → RepresentsBoard self.old b → site.new ≡ last_site result.0 site.old b }
    {
        let is_watched = self.is_watched();
        self.context.steps_to(
            &mut self.machine,
            &mut self.scratch,
            n,
            is_watched,
            marks,
            site,
        )
    }
}

impl Context {
    // Makes at most `n` steps, until one reaches a mark or there is a reason to stop. `site` then is where PC
    // was before the last step, and stays if none was made, as in each function below.
    fn steps_to(
        &mut self,
        machine: &mut Machine,
        scratch: &mut Option<Machine>,
        n: u16,
        is_watched: bool,
        marks: &Marks,
        site: &mut u16,
    ) -> (u16, SliceOutcome)
        requires scratch { IsSome scratch.old }
        requires room { n ≤ self.old.devices.spare }
        requires watched { Watches is_watched self.old.is_attached self.old.request }
        requires kept { IsKept machine.old marks.now }
        ensures slice { (lab : LabState) (b : Board) → RepresentsBoard (in_slice lab machine.old self.old) b
            → IsSlice (first_mark marks.now n b) b result.0 result.1 }
        ensures represents { (lab : LabState) (b : Board)
            → RepresentsBoard (in_slice lab machine.old self.old) b
            → RepresentsDuringSlice (in_slice lab machine.new self.new) (after_steps result.0 b) (traffic_of
            result.0 b) }
        ensures kept { (lab : LabState) (b : Board) → RepresentsBoard (in_slice lab machine.old self.old) b
            → IsKept (after_steps (result.0 - 1) b).machine marks.now }
        ensures site { (lab : LabState) (b : Board) → RepresentsBoard (in_slice lab machine.old self.old) b
            → site.new ≡ last_site result.0 site.old b }
        ensures scratch { IsSome scratch.new }
    {
        let mut k = 0u16;
        while k < n {
            let (made, found) = self.round_to(machine, scratch, n - k, is_watched, marks, site);
            k += made;
            if let Some(outcome) = found {
                cold_path();
                return (k, outcome);
            }
            if marks.is_at(machine) {
                cold_path();
                let last = self.reason_after(machine, is_watched);
                return (k, last.unwrap_or(SliceOutcome::More));
            }
        }
        let reason = self.reason_after(machine, is_watched);
        (n, reason.unwrap_or(SliceOutcome::More))
    }

    // Makes steps of which only the last can reach a mark, or returns the first reason to make none.
    #[inline(always)]
    fn round_to(
        &mut self,
        machine: &mut Machine,
        scratch: &mut Option<Machine>,
        most: u16,
        is_watched: bool,
        marks: &Marks,
        site: &mut u16,
    ) -> (u16, Option<SliceOutcome>)
        requires scratch { IsSome scratch.old }
        requires room { most ≤ self.old.devices.spare }
        requires some { 1 ≤ most }
        requires watched { Watches is_watched self.old.is_attached self.old.request }
        requires kept { IsKept machine.old marks.now }
        ensures made { MakesAtMost most result (machine.old, self.old) (machine.new, self.new) }
        ensures far { (floor : ℕ) → IsInBurst floor machine.old self.old
            → GoesFar most result machine.new self.new ⊎ (is_at machine.new marks.now ≡ true) }
        ensures passes { PassesIn marks.now result.0 machine.old self.old }
        ensures unmarked { IsSome result.1 → PassesIn marks.now (result.0 + 1) machine.old self.old }
        ensures site { ComputesIn (last_site result.0 site.old) site.new machine.old self.old }
        ensures scratch { IsSome scratch.new }
    {
        if let Some(outcome) = self.reason_before(machine, is_watched) {
            cold_path();
            return (0, Some(outcome));
        }
        let frame_floor = self.frames.frame_floor();
        if !self.is_ready(machine, frame_floor) {
            return self.single_to(machine, site);
        }
        self.burst_to_apart(machine, scratch, most, frame_floor, marks, site)
    }

    // Makes at most one step.
    #[inline(always)]
    fn single_to(&mut self, machine: &mut Machine, site: &mut u16) -> (u16, Option<SliceOutcome>)
        requires room { 1 ≤ self.old.devices.spare }
        requires free { ComputesIn reason_before_fetch None machine.old self.old }
        ensures made { MakesAtMost 1 result (machine.old, self.old) (machine.new, self.new) }
        ensures site { ComputesIn (last_site result.0 site.old) site.new machine.old self.old }
    {
        let pc = machine.pc();
        let (made, found) = self.single(machine);
        if made > 0 {
            *site = pc;
        }
        (made, found)
    }

    // Such a burst, on a local machine as in `burst_apart`.
    #[inline(never)]
    fn burst_to_apart(
        &mut self,
        machine: &mut Machine,
        scratch: &mut Option<Machine>,
        most: u16,
        frame_floor: u32,
        marks: &Marks,
        site: &mut u16,
    ) -> (u16, Option<SliceOutcome>)
        requires scratch { IsSome scratch.old }
        requires some { 1 ≤ most }
        requires may { BurstMayBegin most frame_floor (is_some self.old.request) machine.old self.old }
        requires kept { IsKept machine.old marks.now }
        ensures made { MakesAtMost most result (machine.old, self.old) (machine.new, self.new) }
        ensures far { GoesFar most result machine.new self.new ⊎ (is_at machine.new marks.now ≡ true) }
        ensures passes { PassesIn marks.now result.0 machine.old self.old }
        ensures unmarked { IsSome result.1 → PassesIn marks.now (result.0 + 1) machine.old self.old }
        ensures site { ComputesIn (last_site result.0 site.old) site.new machine.old self.old }
        ensures scratch { IsSome scratch.new }
    {
        let given = scratch.take().unwrap();
        let mut local = mem::replace(machine, given);
        let made = self.burst_to(&mut local, most, frame_floor, marks, site);
        *scratch = Some(mem::replace(machine, local));
        made
    }

    // Makes steps until one ends the burst, or reaches a mark or a breakpoint.
    #[inline(always)]
    fn burst_to(
        &mut self,
        machine: &mut Machine,
        most: u16,
        frame_floor: u32,
        marks: &Marks,
        site: &mut u16,
    ) -> (u16, Option<SliceOutcome>)
        requires some { 1 ≤ most }
        requires may { BurstMayBegin most frame_floor (is_some self.old.request) machine.old self.old }
        requires kept { IsKept machine.old marks.now }
        ensures made { MakesAtMost most result (machine.old, self.old) (machine.new, self.new) }
        ensures far { GoesFar most result machine.new self.new ⊎ (is_at machine.new marks.now ≡ true) }
        ensures passes { PassesIn marks.now result.0 machine.old self.old }
        ensures unmarked { IsSome result.1 → PassesIn marks.now (result.0 + 1) machine.old self.old }
        ensures site { ComputesIn (last_site result.0 site.old) site.new machine.old self.old }
    {
        let looks_up = self.looks_up();
        let is_asked = self.request.is_some();
        let mut left = most;
        let mut frame_floor = frame_floor;
        while left > 0 {
            let pc = machine.pc();
            match self.burst_step(machine, is_asked, frame_floor) {
                BurstStep::Within(now) => frame_floor = now,
                BurstStep::Last => {
                    *site = pc;
                    return (most - left + 1, None);
                }
                BurstStep::Ended(outcome) => {
                    cold_path();
                    return (most - left, Some(outcome));
                }
            }
            *site = pc;
            left -= 1;
            if marks.is_at(machine) {
                cold_path();
                return (most - left, None);
            }
            if let Some(_) = self.met(machine, looks_up) {
                cold_path();
                return (most - left, None);
            }
        }
        (most, None)
    }
}
