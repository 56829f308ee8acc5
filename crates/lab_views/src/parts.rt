//! The parts of a board that views show.

use asm_build::symbols::Symbols;
use i80_devs::devices::Devices;
use i80_exec::machine::Machine;
use lab_frames::frames::Frames;
use lab_image::lists::BreakpointList;
use lab_image::origins::Origins;
use lab_image::sources::Sources;

/// The parts of a board.
#[derive(Clone, Copy)]
pub struct Parts<'a> {
    pub machine: &'a Machine,
    pub devices: &'a Devices,
    /// The live frames of the run.
    pub frames: &'a Frames,
    pub origins: &'a Origins,
    pub symbols: &'a Symbols,
    pub sources: &'a Sources,
    /// A list for each source that has breakpoints.
    pub breakpoints: &'a [BreakpointList],
    /// Whether a debugger is attached.
    pub is_attached: bool,
    /// Whether there is a run and it is stopped.
    pub is_stopped: bool,
}
