//! The events of a board.

use base_text::sequence::{Bytes, Sequence};
use base_text::text::Text;
use i80_base::board::Board;
use lab_shown::step::{Granularity, StepKind};
use lab_views::view::View;

/// A request to step.
#[derive(Clone, Copy)]
pub struct StepRequest {
    pub kind: StepKind,
    pub granularity: Granularity,
}

/// An event.
#[derive(Drop)]
pub enum Event {
    /// Assembles a cell with the symbols of earlier cells, loads its bytes, and stores its text under its
    /// path. Refused during a run.
    Load {
        path: Text,
        text: Text,
    },
    /// Stores a text under its path without assembling it.
    Dump {
        path: Text,
        text: Text,
    },
    /// Starts a run at this address. Refused during a run.
    Start(u16),
    /// Executes at most this many steps of the run, from 1 to 4,096.
    Slice(u16),
    /// Stops the run. Refused unless a debugger is attached.
    Pause,
    /// Continues a stopped run.
    Resume,
    /// Continues a stopped run until the Step is complete.
    Step(StepRequest),
    /// Changes a register (scope 1, by its name there) or a byte of memory (scope 5, by its address) of a
    /// stopped run. `lab_views::place` and `lab_views::value` define the names and values. This isn't a
    /// step: no frame ends, and a wait continues.
    Poke {
        reference: u32,
        name: Text,
        value: Text,
    },
    /// Ends the run.
    Interrupt,
    /// Resets machine and devices to power-on, unloads everything and ends the run. Symbols, texts,
    /// breakpoints, the attached debugger and the treatment of undefined opcodes are kept.
    Reset,
    /// Sets whether the twelve undefined opcodes act as on real processors. Refused during a run.
    SetBoard(Board),
    /// Replaces the breakpoints of a stored text: at most 256 lines, numbered from 1.
    SetBreakpoints {
        path: Text,
        lines: Sequence<u32>,
    },
    /// Attaches a debugger, which enables breakpoints.
    Attach,
    /// Detaches it, removes all breakpoints and continues a stopped run.
    Detach,
    /// Types bytes at the console.
    Typed(Bytes),
    /// Sets the front panel's eight switches.
    Switches(u8),
    /// Presses the front panel's button n, from 0 to 7, which requests RST n.
    Press(u8),
    /// Shows a view of the board.
    Show(View),
}
