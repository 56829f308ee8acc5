//! One step of the board.
ghost use Rattle.std.specs.Prelude.{◌≡◌, ◌+◌, ◌≤◌, List, IfSome, IfNone, None, false};
ghost use Rattle.i80_exec.specs.Step.{is_arming};
ghost use Rattle.i80_devs.specs.Past.{Operation, RepresentsPast, Taken, Appends, SamePorts};
ghost use Rattle.lab_frames.specs.Frames.{TellsSp};
ghost use Rattle.lab_frames.specs.Steps.{acceptance_due, IsBoardStep};
ghost use Rattle.lab_frames.specs.BoardSteps.{StepsBoard, StepsWithoutRequest};

use i80_devs::devices::Devices;
use i80_devs::laws::panel_after_one_more;
use i80_exec::machine::Machine;
use i80_exec::registers::{Kind, Stepped};

/// Accepts the latched request if interrupts are on, and else executes the instruction at PC.
#[inline(always)]
pub fn board_step(machine: &mut Machine, devices: &mut Devices) -> Stepped
    requires room { 1 ≤ devices.old.spare }
    ensures step { StepsBoard (machine.old, machine.new) (devices.old, devices.new) result }
    ensures sp { TellsSp result machine.old.regs.sp machine.new.regs.sp }
    ensures spare { devices.old.spare ≤ devices.new.spare + 1 }
{
    panel_after_one_more();
    match accept(machine, devices) {
        Some(answer) => answer,
        None => machine.step(devices),
    }
}

/// Does the same where no request is latched and EI wasn't the last instruction. Returns the step's kind.
#[inline(always)]
pub fn settled_step(machine: &mut Machine, devices: &mut Devices) -> Kind
    requires room { 1 ≤ devices.old.spare }
    requires settled { is_arming machine.old.regs.interrupts ≡ false }
    requires unlatched { devices.old.panel.latched ≡ None }
    ensures { StepsWithoutRequest (machine.old, machine.new) (devices.old, devices.new) result }
{
    panel_after_one_more();
    machine.step_settled(devices)
}

/// Accepts the latched request, if there is one and interrupts are on.
#[inline]
fn accept(machine: &mut Machine, devices: &mut Devices) -> Option<Stepped>
    ensures taken { IfSome result (λ answer. (past : List Operation) → RepresentsPast devices.old past
        → IsBoardStep past machine.old devices.old machine.new devices.new answer) }
    ensures sp { IfSome result (λ answer. TellsSp answer machine.old.regs.sp machine.new.regs.sp) }
    ensures none { IfNone result ((past : List Operation) → RepresentsPast devices.old past
        → acceptance_due machine.old past ≡ None) }
    ensures unchanged { IfNone result ((machine.new ≡ machine.old) × (devices.new ≡ devices.old)) }
    ensures spare { devices.new.spare ≡ devices.old.spare }
{
    let vector = devices.request()?;
    let answer = machine.accept(vector)?;
    take_request(devices);
    Some(answer)
}

// Takes the request that was accepted. It is a cold function, so that the path to it is laid out apart from
// the usual one.
#[cold]
#[inline(never)]
fn take_request(devices: &mut Devices)
    ensures past { Appends Taken devices.old devices.new }
    ensures ports { SamePorts devices.old devices.new }
{
    devices.take_request();
}
