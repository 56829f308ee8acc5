//! Six runs of the workspace's parts, each told whole. Where a call has no memory, a line `out of memory:
//! CALL` tells it, the value is held against what it was before, and the same call is made once more. So
//! whichever one allocation is refused, the same is printed but for one such line at most: refusals/run
//! refuses each in turn, by the program lab80_tests. No contract is claimed here but that events fit and
//! passes stay with their desk.
#![tactic(auto)]

pub mod again;
mod answers;
mod assembler;
mod board;
mod desk;
mod host;
mod host_replay;
mod kernel;
mod made;
mod plays;
mod scripts;

use anyhow::Result;
use std::alloc::Global;
use std::rt::Clock;
use std::sync::Wait;
use std::thread::Threads;

/// The runs.
#[derive(Clone, Copy)]
pub enum Run {
    Assembler,
    Board,
    Kernel,
    Requests,
    Desk,
    Host,
}

impl Run {
    /// The run of this name.
    pub fn from_name(name: &str) -> Option<Run> {
        match name {
            "assembler" => Some(Run::Assembler),
            "board" => Some(Run::Board),
            "kernel" => Some(Run::Kernel),
            "requests" => Some(Run::Requests),
            "desk" => Some(Run::Desk),
            "host" => Some(Run::Host),
            _ => None,
        }
    }

    /// Makes the run, and prints what its calls give.
    pub fn make<R: Threads + Wait + Clock + Print + Sync>(
        self,
        rt: &R,
        alloc: Global,
    ) -> Result<()> {
        match self {
            Run::Assembler => assembler::run(rt, alloc),
            Run::Board => board::run(rt, alloc),
            Run::Kernel => kernel::run(rt, alloc, scripts::FIRST),
            Run::Requests => kernel::run(rt, alloc, scripts::REQUESTS),
            Run::Desk => desk::run(rt, alloc),
            Run::Host => host::run(rt, alloc),
        }
    }
}
