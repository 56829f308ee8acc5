//! Bursts, which make most steps of a slice. During one no request is latched, no pending Step is done, and
//! the last step wasn't HLT. A quiet step answers Done and leaves SP below the slot of every live frame, so
//! it is only counted: the loop tests its kind, and the next address if breakpoints can be met. After
//! another step the live frames are updated, and the burst continues but for HLT, EI and a Step's end.
ghost use Rattle.std.specs.Prelude.{◌≡◌, ◌+◌, ◌<◌, ◌≤◌, ◌⊎◌, ℕ, true, false, None, IsSome, is_some};
ghost use Rattle.std.specs.Prelude.{reverse, slice_get};
ghost use Rattle.i80_exec.specs.declared.registers.Kind.TheVariants.{Quiet, Moved};
ghost use Rattle.i80_exec.specs.Step.{answer_of};
ghost use Rattle.lab_frames.specs.Frames.{AtLeast, CallsAt, frame_floor_of};
ghost use Rattle.lab_core.specs.Slices.{end_by_undefined};
ghost use Rattle.lab_core.specs.Labs.{ComputesIn, OneStepOnIn, SameBoardIn, KeepsAsked, IsInBurst};
ghost use Rattle.lab_core.specs.Labs.{BurstMayBegin};
ghost use Rattle.lab_core.specs.Labs.{MakesAtMost, LooksUp, GoesOn, IsLast, FollowsBurstStep, ending_of};
ghost use Rattle.lab_core.specs.Labs.{is_step_done, EndsBurst, GoesFar, undefined_end, end_at};

use crate::answer::{End, SliceOutcome};
use crate::cold::cold_path;
use crate::lab::Context;
use crate::lab::steps::is_halt;
use i80_exec::machine::Machine;
use i80_exec::registers::{Kind, Stepped};
use lab_frames::board_step::settled_step;
use std::mem;

/// The result of one step of a burst.
pub(super) enum BurstStep {
    /// The burst continues, with this frame floor.
    Within(u32),
    /// The step was HLT or EI, or the Step is done: the burst ends after it.
    Last,
    /// No step was made, because the opcode at PC is undefined.
    Ended(SliceOutcome),
}

// Whether a step of this kind is quiet. One that may have moved SP is so only if SP is below the frame floor.
#[inline(always)]
fn is_quiet(kind: Kind, sp: u16, frame_floor: u32) -> bool
    requires within { kind ≡ Quiet → sp < frame_floor }
    ensures quiet { result ≡ true → (kind ≡ Quiet) ⊎ (kind ≡ Moved) }
    ensures within { result ≡ true → sp < frame_floor }
    ensures sure { (kind ≡ Quiet) ⊎ (kind ≡ Moved) → sp < frame_floor → result ≡ true }
{
    match kind {
        Kind::Quiet => true,
        Kind::Moved => (sp as u32) < frame_floor,
        _ => false,
    }
}

// How the run ends at an undefined opcode, which is read again. Marked as cold, it would cost a loop that
// counts in C one and a half instructions a step: that register would be in memory.
#[inline(never)]
fn undefined_end(machine: &Machine) -> SliceOutcome
    ensures { result ≡ undefined_end machine.now }
{
    let pc = machine.pc();
    let opcode = machine.peek(pc);
    SliceOutcome::End(End::Undefined { opcode, pc })
}

// How a burst that left this machine ended the run, if it did.
#[inline(always)]
fn end_at(machine: &Machine, is_ended: bool) -> Option<SliceOutcome>
    ensures { result ≡ end_at is_ended machine.now }
{
    if is_ended {
        Some(undefined_end(machine))
    } else {
        None
    }
}

impl Context {
    /// Whether a burst can begin.
    #[inline(always)]
    pub(super) fn is_ready(&self, machine: &Machine, frame_floor: u32) -> bool
        requires floor { frame_floor ≡ frame_floor_of (slice_get (reverse self.now.frames) 0) }
        requires above { (sp : ℕ) → sp < frame_floor → AtLeast sp self.now.frames }
        ensures ready { result ≡ true → IsInBurst frame_floor machine.now self.now }
        ensures sure { (floor : ℕ) → IsInBurst floor machine.now self.now → result ≡ true }
    {
        self.only_fetch_can_stop() && !machine.is_arming() && (machine.sp() as u32) < frame_floor
    }

    /// Makes a burst of at most `most` steps, on a local copy of the machine: nothing else refers to it,
    /// so its fields can stay in registers. The scratch machine takes its place meanwhile. Each combination
    /// of the two constants is compiled separately, so that runs without a debugger or a Step don't pay
    /// for them.
    #[inline(never)]
    pub(super) fn burst_apart<const LOOKS_UP: bool, const IS_ASKED: bool>(
        &mut self,
        machine: &mut Machine,
        scratch: &mut Option<Machine>,
        most: u16,
        frame_floor: u32,
    ) -> (u16, Option<SliceOutcome>)
        requires scratch { IsSome scratch.old }
        requires looks { LooksUp LOOKS_UP self.old }
        requires may { BurstMayBegin most frame_floor IS_ASKED machine.old self.old }
        ensures made { MakesAtMost most result (machine.old, self.old) (machine.new, self.new) }
        ensures far { GoesFar most result machine.new self.new }
        ensures scratch { IsSome scratch.new }
    {
        let given = scratch.take().unwrap();
        let mut local = mem::replace(machine, given);
        let (made, is_ended) = self.burst(&mut local, most, LOOKS_UP, IS_ASKED, frame_floor);
        *scratch = Some(mem::replace(machine, local));
        (made, end_at(machine, is_ended))
    }

    // Makes steps until one ends the burst, or, if breakpoints are checked for, reaches one. Returns how many
    // were made, and whether an undefined opcode ended it: the opcode itself would take a register and an
    // instruction of each step.
    #[inline(always)]
    fn burst(
        &mut self,
        machine: &mut Machine,
        most: u16,
        looks_up: bool,
        is_asked: bool,
        frame_floor: u32,
    ) -> (u16, bool)
        requires looks { LooksUp looks_up self.old }
        requires may { BurstMayBegin most frame_floor is_asked machine.old self.old }
        ensures made { MakesAtMost most (result.0, end_at result.1 machine.new)
            (machine.old, self.old) (machine.new, self.new) }
        ensures far { GoesFar most (result.0, end_at result.1 machine.new) machine.new self.new }
    {
        let mut left = most;
        let mut frame_floor = frame_floor;
        while left > 0 {
            match self.burst_step(machine, is_asked, frame_floor) {
                BurstStep::Within(now) => frame_floor = now,
                BurstStep::Last => return (most - left + 1, false),
                BurstStep::Ended(_) => {
                    cold_path();
                    return (most - left, true);
                }
            }
            left -= 1;
            if let Some(_) = self.met(machine, looks_up) {
                cold_path();
                return (most - left, false);
            }
        }
        (most, false)
    }

    #[inline(always)]
    pub(super) fn burst_step(
        &mut self,
        machine: &mut Machine,
        is_asked: bool,
        frame_floor: u32,
    ) -> BurstStep
        requires room { 1 ≤ self.old.devices.spare }
        requires ready { IsInBurst frame_floor machine.old self.old }
        requires asked { is_some self.old.request ≡ is_asked }
        ensures undefined { ComputesIn end_by_undefined (ending_of result) machine.old self.old }
        ensures ended { IsSome (ending_of result) → SameBoardIn machine.old self.old machine.new self.new }
        ensures made { ending_of result ≡ None → OneStepOnIn machine.old self.old machine.new self.new }
        ensures on { (now : ℕ) → result ≡ BurstStep.Within now → IsInBurst now machine.new self.new }
        ensures last { result ≡ BurstStep.Last → EndsBurst machine.new self.new }
        ensures spare { self.old.devices.spare ≤ self.new.devices.spare + 1 }
        ensures kept { KeepsAsked self.old self.new }
    {
        let pc = machine.pc();
        let kind = settled_step(machine, &mut self.devices);
        let sp = machine.sp();
        if is_quiet(kind, sp, frame_floor) {
            return BurstStep::Within(frame_floor);
        }
        // A constant kind in each arm lets the compiler specialize what `advance` does to the frames.
        match kind {
            Kind::Moved => self.advance(machine, Kind::Moved, pc, is_asked),
            Kind::Called => self.advance(machine, Kind::Called, pc, is_asked),
            Kind::Returned => self.advance(machine, Kind::Returned, pc, is_asked),
            _ => self.advance(machine, kind, pc, is_asked),
        }
    }

    // Updates frames and Step after a step of this kind, not a quiet one, from PC `site`.
    #[inline(always)]
    fn advance(&mut self, machine: &Machine, kind: Kind, site: u16, is_asked: bool) -> BurstStep
        requires calls { CallsAt (answer_of kind machine.now) machine.now.regs.sp }
        requires asked { is_some self.old.request ≡ is_asked }
        ensures follows { FollowsBurstStep
            (answer_of kind machine.now) site machine.now.regs.sp self.old self.new result }
        ensures on { (frame_floor : ℕ) → result ≡ BurstStep.Within frame_floor
            → GoesOn kind machine.now.regs.sp frame_floor self.new }
        ensures last { result ≡ BurstStep.Last
            → IsLast kind ⊎ (is_step_done self.new.request self.new ≡ true) }
    {
        let answer = machine.report(kind);
        if let Stepped::Undefined { opcode } = answer {
            return BurstStep::Ended(SliceOutcome::End(End::Undefined { opcode, pc: site }));
        }
        let sp = machine.sp();
        let left = self.frames.advance(answer, site, sp);
        self.is_halted = is_halt(answer);
        self.follow(answer, sp, left, is_asked);
        if self.is_last(kind, is_asked) {
            return BurstStep::Last;
        }
        BurstStep::Within(self.frames.frame_floor())
    }

    // Whether the burst ends after a step of this kind: EI, HLT, or one after which the Step is done.
    #[inline(always)]
    fn is_last(&self, kind: Kind, is_asked: bool) -> bool
        requires asked { is_some self.now.request ≡ is_asked }
        ensures last { result ≡ true → IsLast kind ⊎ (is_step_done self.now.request self.now ≡ true) }
        ensures on { result ≡ false → IsLast kind → ⊥ }
        ensures undone { result ≡ false → is_step_done self.now.request self.now ≡ false }
    {
        match kind {
            Kind::Armed | Kind::Halted => true,
            _ => is_asked && self.is_step_done(),
        }
    }
}
