//! The reasons for a slice to make no further step.
ghost use Rattle.std.specs.Prelude.{◌≡◌, ◌&&◌, true, if◌then◌else◌, Some, None, IsSome, is_none};
ghost use Rattle.std.specs.Option.{option_or};
ghost use Rattle.lab_core.specs.Stops.{at_breakpoint, meets_breakpoint, complete, completes, is_reached};
ghost use Rattle.lab_core.specs.Stops.{is_first, is_there};
ghost use Rattle.lab_core.specs.Slices.{is_off, is_on, end_by_halt, waiting};
ghost use Rattle.lab_core.specs.Slices.{reason_after_step, reason_before_fetch};
ghost use Rattle.lab_core.specs.Labs.{ComputesIn, Watches, OnlyFetchCanStop, LooksUp, is_done_in};
ghost use Rattle.lab_core.specs.Labs.{is_step_done};

use crate::answer::{End, SliceOutcome, Stop};
use crate::event::StepRequest;
use crate::lab::Context;
use i80_exec::machine::Machine;
use i80_exec::registers::Interrupts;
use lab_image::origin::Origin;
use lab_shown::step::{Granularity, StepKind};

#[inline]
fn is_on(interrupts: Interrupts) -> bool
    ensures { result ≡ is_on interrupts }
{
    matches!(interrupts, Interrupts::On)
}

// After HLT the run ends if interrupts are off. Cold, as HLT is rare.
#[cold]
#[inline(never)]
fn end_after_halt(interrupts: Interrupts) -> Option<SliceOutcome>
    ensures { result ≡ (if is_off interrupts then Some (SliceOutcome.End End.Halted) else None) }
{
    match interrupts {
        Interrupts::Off => Some(SliceOutcome::End(End::Halted)),
        Interrupts::Arming => None,
        Interrupts::On => None,
    }
}

// After HLT the run waits if interrupts are on and no request is latched.
#[cold]
#[inline(never)]
fn wait_after_halt(interrupts: Interrupts, request: Option<u8>) -> Option<SliceOutcome>
    ensures { result ≡ (if is_on interrupts && is_none request then Some SliceOutcome.Waiting else None) }
{
    if is_on(interrupts) && request.is_none() {
        Some(SliceOutcome::Waiting)
    } else {
        None
    }
}

fn is_first(origin: Option<Origin>) -> bool
    ensures { result ≡ is_first origin }
{
    match origin {
        None => false,
        Some(origin) => origin.is_first,
    }
}

impl Context {
    /// Whether a burst checks for a breakpoint after each step.
    #[inline(always)]
    pub(super) fn looks_up(&self) -> bool
        ensures { LooksUp result self.now }
    {
        self.is_attached && self.breakpoints.can_be_met()
    }

    /// The reason to end a burst, which can only be a breakpoint.
    #[inline(always)]
    pub(super) fn met(&self, machine: &Machine, looks_up: bool) -> Option<SliceOutcome>
        requires looks { LooksUp looks_up self.now }
        requires only_fetch { OnlyFetchCanStop self.now }
        ensures { ComputesIn reason_before_fetch result machine.now self.now }
    {
        if self.is_met(machine, looks_up) {
            Some(SliceOutcome::Stop(Stop::Breakpoint))
        } else {
            None
        }
    }

    #[inline(always)]
    fn is_met(&self, machine: &Machine, looks_up: bool) -> bool
        requires looks { LooksUp looks_up self.now }
        requires moved { self.now.has_moved ≡ true }
        ensures { ComputesIn meets_breakpoint result machine.now self.now }
    {
        let pc = machine.pc();
        looks_up && self.breakpoints.is_at(pc)
    }

    /// The first reason that is known before the opcode at PC is fetched.
    #[inline(always)]
    pub(super) fn reason_before(&self, machine: &Machine, is_watched: bool) -> Option<SliceOutcome>
        requires { Watches is_watched self.now.is_attached self.now.request }
        ensures { ComputesIn reason_before_fetch result machine.now self.now }
    {
        match self.reason_after(machine, is_watched) {
            Some(outcome) => Some(outcome),
            None => self.find_wait(machine),
        }
    }

    /// The first reason that is checked after a slice's last step too.
    #[inline(always)]
    pub(super) fn reason_after(&self, machine: &Machine, is_watched: bool) -> Option<SliceOutcome>
        requires { Watches is_watched self.now.is_attached self.now.request }
        ensures { ComputesIn reason_after_step result machine.now self.now }
    {
        match self.halt_end(machine) {
            Some(outcome) => Some(outcome),
            None => {
                if is_watched {
                    self.debug_stop(machine)
                } else {
                    None
                }
            }
        }
    }

    #[inline(always)]
    fn halt_end(&self, machine: &Machine) -> Option<SliceOutcome>
        ensures { ComputesIn end_by_halt result machine.now self.now }
    {
        if self.is_halted {
            end_after_halt(machine.regs().interrupts)
        } else {
            None
        }
    }

    // A breakpoint or a complete Step.
    #[inline(always)]
    fn debug_stop(&self, machine: &Machine) -> Option<SliceOutcome>
        ensures { ComputesIn (λ b. option_or (at_breakpoint b) (complete b)) result machine.now self.now }
    {
        if self.is_at_breakpoint(machine) {
            Some(SliceOutcome::Stop(Stop::Breakpoint))
        } else if self.is_complete(machine) {
            Some(SliceOutcome::Stop(Stop::Step))
        } else {
            None
        }
    }

    #[inline(always)]
    fn is_at_breakpoint(&self, machine: &Machine) -> bool
        ensures { ComputesIn meets_breakpoint result machine.now self.now }
    {
        self.is_attached
            && (self.has_moved || !self.is_resumed)
            && self.breakpoints.is_at(machine.pc())
    }

    #[inline(always)]
    fn is_complete(&self, machine: &Machine) -> bool
        ensures { ComputesIn (λ b. completes b.request b) result machine.now self.now }
    {
        match self.request {
            None => false,
            Some(request) => self.has_moved && self.is_reached(machine, request),
        }
    }

    #[inline(always)]
    fn is_reached(&self, machine: &Machine, request: StepRequest) -> bool
        requires { IsSome self.now.request }
        ensures { ComputesIn (is_reached request) result machine.now self.now }
    {
        self.is_done(request.kind) && self.is_there(machine, request.granularity)
    }

    /// Whether a Step is pending that is done: it completes at the next place where it may end.
    #[inline(always)]
    pub(super) fn is_step_done(&self) -> bool
        ensures { result ≡ is_step_done self.now.request self.now }
    {
        match self.request {
            None => false,
            Some(request) => self.is_done(request.kind),
        }
    }

    #[inline(always)]
    fn is_done(&self, kind: StepKind) -> bool
        ensures { result ≡ is_done_in kind self.now }
    {
        match kind {
            StepKind::In => true,
            StepKind::Over => self.frames.len() == self.older,
            StepKind::Out => self.is_gone,
        }
    }

    #[inline(always)]
    fn is_there(&self, machine: &Machine, granularity: Granularity) -> bool
        ensures { ComputesIn (is_there granularity) result machine.now self.now }
    {
        match granularity {
            Granularity::Line => is_first(self.origins.at(machine.pc())),
            Granularity::Instruction => true,
        }
    }

    /// Whether the run waits: the last step was HLT with interrupts on, and no request is latched.
    #[inline(always)]
    pub(super) fn find_wait(&self, machine: &Machine) -> Option<SliceOutcome>
        ensures { ComputesIn waiting result machine.now self.now }
    {
        if self.is_halted {
            wait_after_halt(machine.regs().interrupts, self.devices.request())
        } else {
            None
        }
    }
}
