//! The board of the laboratory.
ghost use Rattle.std.specs.Prelude.{◌≡◌, [], IfOk};

mod burst;
mod changes;
mod debug;
mod events;
mod load;
mod marks;
pub mod moments;
mod poke;
mod slice;
mod steps;
mod stops;

use crate::event::StepRequest;
use crate::run_state::RunState;
use asm_build::symbols::Symbols;
use i80_devs::devices::Devices;
use i80_exec::machine::Machine;
use i80_exec::registers::Registers;
use lab_frames::frame::Frame;
use lab_frames::frames::Frames;
use lab_image::breakpoints::Breakpoints;
use lab_image::origin::Origin;
use lab_image::origins::Origins;
use lab_image::sources::Sources;
use lab_views::views::after_instructions;
use std::alloc::{AllocError, Global};
use std::marker::Model;

/// A board: machine, devices, loaded programs, symbols, texts, breakpoints, and the run with its live frames.
pub struct Lab {
    machine: Machine,
    /// Takes the machine's place while a burst works on the machine as a local value.
    scratch: Option<Machine>,
    context: Context,
    symbols: Symbols,
    sources: Sources,
    run_state: RunState,
    alloc: Global,
}

// Written out so that boards are dropped by a call in all crates, not by inlined code.
impl Drop for Lab {
    fn drop(self) {
        let Self {
            machine: _,
            scratch: _,
            context: _,
            symbols: _,
            sources: _,
            run_state: _,
            alloc: _,
        } = self;
    }
}

/// What the steps of a run use and change besides the machine.
#[derive(Drop)]
struct Context {
    devices: Devices,
    frames: Frames,
    origins: Origins,
    breakpoints: Breakpoints,
    is_attached: bool,
    /// Whether the run's last step was HLT.
    is_halted: bool,
    /// Whether the run had a Resume or a Step.
    is_resumed: bool,
    /// Whether a step was made since the last Resume or Step, or since Start if there was none.
    has_moved: bool,
    /// The pending Step.
    request: Option<StepRequest>,
    /// The number of live frames that are older than the pending Step.
    older: usize,
    /// The innermost frame when the Step began, and whether it has ended.
    innermost: Option<Frame>,
    is_gone: bool,
}

impl Model for Lab {
    ghost use Rattle.std.specs.Prelude.{IsSome};
    ghost use Rattle.lab_core.specs.Labs.{LabState};

    ghost Value = { LabState };

    ghost view = { λ l. record {
      machine = l.machine;
      devices = l.context.devices;
      frames = l.context.frames;
      origins = l.context.origins;
      symbols = l.symbols;
      sources = l.sources;
      breakpoints = l.context.breakpoints;
      is_attached = l.context.is_attached;
      run = l.run_state;
      is_halted = l.context.is_halted;
      is_resumed = l.context.is_resumed;
      has_moved = l.context.has_moved;
      request = l.context.request;
      older = l.context.older;
      innermost = l.context.innermost;
      is_gone = l.context.is_gone;
    } };

    ghost invariant = { λ l. IsSome l.scratch };
}

impl Lab {
    ghost use Rattle.i80_exec.specs.State.{byte_at};
    ghost use Rattle.lab_frames.specs.Live.{live};
    ghost use Rattle.i80_devs.specs.Past as devices;
    ghost use Rattle.lab_image.specs.Loads.{origin_of};
    ghost use Rattle.lab_image.specs.Breakpoints.{is_met};
    ghost use Rattle.lab_views.specs.Code.{after_instructions};
    ghost use Rattle.lab_core.specs.Board.{Board, opening};
    ghost use Rattle.lab_core.specs.Labs.{RepresentsBoard};

    /// A board after power-on, with nothing loaded. Allocates everything that has a fixed size: two
    /// machines, the live frames, the list of texts and the breakpoint table.
    pub fn new(alloc: Global) -> Result<Lab, AllocError>
        ensures { IfOk result (λ lab. RepresentsBoard lab opening) }
    {
        let machine = Machine::new(alloc)?;
        let scratch = Machine::new(alloc)?;
        let frames = Frames::new(alloc)?;
        let sources = Sources::new(alloc)?;
        let breakpoints = Breakpoints::new(alloc)?;
        Ok(Lab {
            machine,
            scratch: Some(scratch),
            context: Context {
                devices: Devices::new(alloc),
                frames,
                origins: Origins::new(alloc),
                breakpoints,
                is_attached: false,
                is_halted: false,
                is_resumed: false,
                has_moved: false,
                request: None,
                older: 0,
                innermost: None,
                is_gone: false,
            },
            symbols: Symbols::new(alloc),
            sources,
            run_state: RunState::NoRun,
            alloc,
        })
    }

    /// The registers, flags and interrupt state.
    pub fn regs(&self) -> Registers
        ensures { (b : Board) → RepresentsBoard self.now b → result ≡ b.machine.regs }
    {
        self.machine.regs()
    }

    /// The byte at an address.
    pub fn peek(&self, address: u16) -> u8
        ensures { (b : Board) → RepresentsBoard self.now b → result ≡ byte_at b.machine address }
    {
        self.machine.peek(address)
    }

    /// The state of the run.
    pub fn run_state(&self) -> RunState
        ensures { (b : Board) → RepresentsBoard self.now b → result ≡ b.run }
    {
        self.run_state
    }

    /// The live frames of the last run.
    pub fn frames(&self) -> &Frames
        ensures { (b : Board) → RepresentsBoard self.now b → result.now ≡ live b.trace }
    {
        &self.context.frames
    }

    /// The console and the front panel.
    pub fn devices(&self) -> &Devices
        ensures { (b : Board) → RepresentsBoard self.now b → devices.RepresentsPast result.now b.past }
    {
        &self.context.devices
    }

    /// The symbols of the cells loaded so far.
    pub fn symbols(&self) -> &Symbols
        ensures { (b : Board) → RepresentsBoard self.now b → result.now ≡ b.symbols }
    {
        &self.symbols
    }

    /// The address `count` instructions after `address`, decoded as the code view does. Addresses wrap.
    pub fn after_instructions(&self, address: u16, count: u16) -> u16
        ensures { (b : Board) → RepresentsBoard self.now b
            → result ≡ after_instructions b.machine address count }
    {
        after_instructions(&self.machine, address, count)
    }

    /// The source line that the byte at an address was loaded from.
    pub fn origin_at(&self, address: u16) -> Option<Origin>
        ensures { (b : Board) → RepresentsBoard self.now b → result ≡ origin_of b.loads address }
    {
        self.context.origins.at(address)
    }

    /// Whether a breakpoint is met at an address.
    pub fn has_breakpoint_at(&self, address: u16) -> bool
        ensures { (b : Board) → RepresentsBoard self.now b
            → result ≡ is_met b.breakpoints b.loads address }
    {
        self.context.breakpoints.is_at(address)
    }
}
