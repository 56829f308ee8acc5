//! Snapshots of a run.
ghost use Rattle.std.specs.Prelude.{◌≡◌, IfOk, OnOk, OnErr};
ghost use Rattle.lab_core.specs.Board.{Board};
ghost use Rattle.lab_core.specs.Labs.{RepresentsBoard};
ghost use Rattle.lab_core.specs.Moments.{IsMomentOf, put_back, after_hold};

use crate::lab::Lab;
use crate::run_state::RunState;
use i80_devs::devices::Devices;
use i80_exec::machine::Machine;
use lab_frames::frames::Frames;
use std::alloc::AllocError;
use std::marker::Model;

/// A snapshot of what a run changes: the machine, the devices and the live frames.
#[derive(Drop)]
pub struct Moment {
    machine: Machine,
    devices: Devices,
    frames: Frames,
    is_halted: bool,
}

impl Model for Moment {
    ghost use Rattle.lab_core.specs.Moments.{MomentState};

    ghost Value = { MomentState };

    ghost view = { λ m. record {
      machine = m.machine;
      devices = m.devices;
      frames = m.frames;
      is_halted = m.is_halted;
    } };
}

impl Lab {
    /// Takes a snapshot of the run.
    pub fn moment(&self) -> Result<Moment, AllocError>
        ensures { (b : Board) → RepresentsBoard self.now b → IfOk result (λ moment. IsMomentOf moment b) }
    {
        let machine = self.machine.copy()?;
        let devices = self.context.devices.copy()?;
        let frames = self.context.frames.copy(self.alloc)?;
        Ok(Moment {
            machine,
            devices,
            frames,
            is_halted: self.context.is_halted,
        })
    }

    /// Puts the run back to a moment, running and without a debugger. Breakpoints, texts and symbols keep
    /// their present values. On error nothing changes.
    pub fn put_back(&mut self, moment: &Moment) -> Result<(), AllocError>
        ensures ok { (was now : Board) → IsMomentOf moment.now was → RepresentsBoard self.old now
            → OnOk result (RepresentsBoard self.new (put_back was now)) }
        ensures err { OnErr result (self.new ≡ self.old) }
    {
        // Every allocation comes before the first change.
        let machine = moment.machine.copy()?;
        let devices = moment.devices.copy()?;
        let frames = moment.frames.copy(self.alloc)?;
        self.machine = machine;
        self.context.devices = devices;
        self.context.frames = frames;
        self.context.is_halted = moment.is_halted;
        self.context.is_attached = false;
        self.context.is_resumed = true;
        self.context.has_moved = false;
        self.context.request = None;
        self.run_state = RunState::Running;
        Ok(())
    }

    /// Attaches a debugger and stops the run where it is.
    pub fn hold(&mut self)
        ensures { (b : Board) → RepresentsBoard self.old b → RepresentsBoard self.new (after_hold b) }
    {
        self.context.is_attached = true;
        self.context.is_resumed = true;
        self.context.has_moved = false;
        self.context.request = None;
        self.run_state = RunState::Stopped;
    }
}
