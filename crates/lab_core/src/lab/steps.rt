//! The steps of a slice, in bursts and one by one.
ghost use Rattle.std.specs.Prelude.{◌≡◌, ◌+◌, ◌≤◌, ℕ, min, true, None, IfNone, IsSome, is_some};
ghost use Rattle.i80_exec.specs.Step.{is_halt};
ghost use Rattle.lab_core.specs.Board.{Board};
ghost use Rattle.lab_core.specs.Stops.{is_gone_after};
ghost use Rattle.lab_core.specs.Slices.{end_by_undefined, reason_before_fetch, IsSlice, after_steps};
ghost use Rattle.lab_core.specs.Slices.{traffic_of};
ghost use Rattle.lab_core.specs.Labs.{LabState, RepresentsBoard, RepresentsDuringSlice, in_slice};
ghost use Rattle.lab_core.specs.Labs.{ComputesIn};
ghost use Rattle.lab_core.specs.Labs.{OneStepOnIn, SameBoardIn};
ghost use Rattle.lab_core.specs.Labs.{Watches, KeepsAsked, OnlyFetchCanStop, MakesAtMost};
ghost use Rattle.lab_core.specs.Labs.{IsInBurst, GoesFar};

use crate::answer::{End, SliceOutcome};
use crate::cold::cold_path;
use crate::lab::Context;
use i80_exec::machine::Machine;
use i80_exec::registers::Stepped;
use lab_frames::board_step::board_step;
use lab_frames::frame::Frame;
use lab_frames::frames::is_ended;

/// Whether a step was HLT.
#[inline]
pub(super) fn is_halt(answer: Stepped) -> bool
    ensures { result ≡ is_halt answer }
{
    matches!(answer, Stepped::Halted)
}

// Whether a frame has ended after a step with this answer and SP, if it had before as `is_gone` says.
fn is_gone_after(is_gone: bool, frame: Option<Frame>, answer: Stepped, sp: u16) -> bool
    ensures { result ≡ is_gone_after is_gone frame answer sp }
{
    match frame {
        Some(frame) => is_gone || is_ended(answer, sp, frame.slot),
        None => is_gone,
    }
}

impl Context {
    /// Makes at most `n` steps, until there is a reason to stop: how many, and how the slice ended.
    #[inline(always)]
    pub(super) fn steps(
        &mut self,
        machine: &mut Machine,
        scratch: &mut Option<Machine>,
        n: u16,
        is_watched: bool,
    ) -> (u16, SliceOutcome)
        requires scratch { IsSome scratch.old }
        requires room { n ≤ self.old.devices.spare }
        requires watched { Watches is_watched self.old.is_attached self.old.request }
        ensures slice { (lab : LabState) (b : Board) → RepresentsBoard (in_slice lab machine.old self.old) b
            → IsSlice n b result.0 result.1 }
        ensures represents { (lab : LabState) (b : Board)
            → RepresentsBoard (in_slice lab machine.old self.old) b
            → RepresentsDuringSlice (in_slice lab machine.new self.new) (after_steps result.0 b) (traffic_of
            result.0 b) }
        ensures scratch { IsSome scratch.new }
    {
        let mut k = 0u16;
        while k < n {
            let (made, found) = self.round(machine, scratch, n - k, is_watched);
            k += made;
            if let Some(outcome) = found {
                cold_path();
                return (k, outcome);
            }
        }
        let reason = self.reason_after(machine, is_watched);
        (n, reason.unwrap_or(SliceOutcome::More))
    }

    // Makes a burst if one can begin, as long a one as can be, else one step, or returns the first reason to
    // make none.
    #[inline(always)]
    fn round(
        &mut self,
        machine: &mut Machine,
        scratch: &mut Option<Machine>,
        most: u16,
        is_watched: bool,
    ) -> (u16, Option<SliceOutcome>)
        requires scratch { IsSome scratch.old }
        requires room { most ≤ self.old.devices.spare }
        requires some { 1 ≤ most }
        requires watched { Watches is_watched self.old.is_attached self.old.request }
        ensures made { MakesAtMost most result (machine.old, self.old) (machine.new, self.new) }
        ensures far { (floor : ℕ) → IsInBurst floor machine.old self.old
            → GoesFar most result machine.new self.new }
        ensures scratch { IsSome scratch.new }
    {
        if let Some(outcome) = self.reason_before(machine, is_watched) {
            cold_path();
            return (0, Some(outcome));
        }
        let frame_floor = self.frames.frame_floor();
        if !self.is_ready(machine, frame_floor) {
            return self.single(machine);
        }
        let looks_up = self.looks_up();
        if self.request.is_some() {
            if looks_up {
                return self.burst_apart::<true, true>(machine, scratch, most, frame_floor);
            }
            return self.burst_apart::<false, true>(machine, scratch, most, frame_floor);
        }
        if looks_up {
            return self.burst_apart::<true, false>(machine, scratch, most, frame_floor);
        }
        self.burst_apart::<false, false>(machine, scratch, most, frame_floor)
    }

    /// Makes at most one step. Not inlined, since each copy would carry the code of all opcodes.
    #[inline(never)]
    pub(super) fn single(&mut self, machine: &mut Machine) -> (u16, Option<SliceOutcome>)
        requires room { 1 ≤ self.old.devices.spare }
        requires free { ComputesIn reason_before_fetch None machine.old self.old }
        ensures { MakesAtMost 1 result (machine.old, self.old) (machine.new, self.new) }
    {
        match self.step(machine) {
            Some(outcome) => (0, Some(outcome)),
            None => (1, None),
        }
    }

    // Makes a step, unless the opcode at PC is undefined and no request is accepted before it.
    #[inline(always)]
    fn step(&mut self, machine: &mut Machine) -> Option<SliceOutcome>
        requires room { 1 ≤ self.old.devices.spare }
        ensures undefined { ComputesIn end_by_undefined result machine.old self.old }
        ensures some { IsSome result → SameBoardIn machine.old self.old machine.new self.new }
        ensures none { IfNone result (OneStepOnIn machine.old self.old machine.new self.new) }
        ensures spare { self.old.devices.spare ≤ self.new.devices.spare + 1 }
        ensures kept { KeepsAsked self.old self.new }
    {
        let pc = machine.pc();
        let answer = board_step(machine, &mut self.devices);
        let sp = machine.sp();
        if let Stepped::Undefined { opcode } = answer {
            return Some(SliceOutcome::End(End::Undefined { opcode, pc }));
        }
        let left = self.frames.advance(answer, pc, sp);
        self.is_halted = is_halt(answer);
        self.has_moved = true;
        let is_asked = self.request.is_some();
        self.follow(answer, sp, left, is_asked);
        None
    }

    /// Whether nothing can end the slice but a breakpoint at PC or an undefined opcode there.
    #[inline(always)]
    pub(super) fn only_fetch_can_stop(&self) -> bool
        ensures only_fetch { result ≡ true → OnlyFetchCanStop self.now }
        ensures sure { OnlyFetchCanStop self.now → result ≡ true }
    {
        if self.is_halted || !self.has_moved || self.is_step_done() {
            return false;
        }
        self.devices.request().is_none()
    }

    // Updates what decides a pending Step, after a step with this answer and SP that left so many frames.
    #[inline(always)]
    pub(super) fn follow(&mut self, answer: Stepped, sp: u16, left: usize, is_asked: bool)
        requires asked { is_some self.old.request ≡ is_asked }
        ensures rest { self.new ≡ record self.old { older = self.new.older; is_gone = self.new.is_gone } }
        ensures older { IsSome self.old.request → self.new.older ≡ min self.old.older left }
        ensures gone { IsSome self.old.request
            → self.new.is_gone ≡ is_gone_after self.old.is_gone self.old.innermost answer sp }
    {
        if is_asked {
            self.older = self.older.min(left);
            self.is_gone = is_gone_after(self.is_gone, self.innermost, answer, sp);
        }
    }
}
