//! The answers to events.
use crate::fault::EventFault;
use base_text::sequence::Sequence;
use base_text::text::Text;
use i80_devs::traffic::Traffic;
use lab_shown::shown::{Breakpoint, Shown};

/// Why a debugger stopped a run.
#[derive(Clone, Copy)]
pub enum Stop {
    /// It reached a breakpoint.
    Breakpoint,
    /// A Step completed.
    Step,
}

/// How a program ended its run.
#[derive(Clone, Copy)]
pub enum End {
    /// HLT with interrupts disabled.
    Halted,
    /// The opcode at PC is undefined on this board.
    Undefined { opcode: u8, pc: u16 },
}

/// How a slice ended.
#[derive(Clone, Copy)]
pub enum SliceOutcome {
    /// It made all its steps, and the run continues.
    More,
    /// After HLT with interrupts enabled, the run waits for an interrupt request.
    Waiting,
    /// The run stopped for the debugger.
    Stop(Stop),
    /// The run ended.
    End(End),
}

/// The answer to an event.
#[derive(Drop)]
pub enum Answer {
    /// The start address from the cell's END, if it has one.
    Loaded {
        start: Option<u16>,
    },
    Dumped,
    Started,
    /// The number of steps, the IN and OUT operations they performed, and how the slice ended.
    Sliced {
        executed: u16,
        traffic: Traffic,
        outcome: SliceOutcome,
    },
    Accepted,
    /// The new value, formatted as its scope shows it.
    Poked(Text),
    Interrupted,
    Reset,
    BoardSet,
    /// The requested breakpoints, in order.
    Breakpoints(Sequence<Breakpoint>),
    Shown(Shown),
}

/// The answers to a list of events in order, including refusals.
pub type Answers = Sequence<Result<Answer, EventFault>>;

/// What the failed allocation was for.
#[derive(Clone, Copy)]
pub enum Wanted {
    /// Space for the next answer.
    Answer,
    /// The first event without an answer.
    Event,
}

/// `Lab::run` ran out of memory: the answers so far, and what the failed allocation was for.
#[derive(Drop)]
pub struct EventsFault {
    pub answers: Answers,
    pub wanted: Wanted,
}
