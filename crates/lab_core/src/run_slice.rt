//! Slices of a run.
ghost use Rattle.std.specs.Prelude.{◌≡◌, ◌≤◌, length, IfOk, OnErr};
ghost use Rattle.lab_core.specs.declared.run_state.RunState.TheVariants.{Running};
ghost use Rattle.lab_core.specs.Board.{Board};
ghost use Rattle.lab_core.specs.Labs.{RepresentsBoard, IsSliceFrom};

use crate::answer::{Answer, SliceOutcome};
use crate::event::Event;
use crate::lab::Lab;
use i80_devs::traffic::Traffic;
use std::alloc::AllocError;

/// The steps of a slice, at most: so few that a pause or an interrupt waits a fraction of a millisecond.
pub const STEPS: u16 = 4096;

/// Makes a slice of the run: the port operations of its steps, and how it ended. A board without a run that
/// goes on gives the same error as one that runs out of memory.
pub fn run_slice(lab: &mut Lab) -> Result<(Traffic, SliceOutcome), AllocError>
    ensures made { (b : Board) → RepresentsBoard lab.old b → b.run ≡ Running
        → IfOk result (λ s. IsSliceFrom b s lab.new) }
    ensures few { (b : Board) → RepresentsBoard lab.old b → IfOk result (λ made. length made.0 ≤ 4096) }
    ensures err { (b : Board) → RepresentsBoard lab.old b → OnErr result (lab.new ≡ lab.old) }
{
    match lab.apply(&Event::Slice(STEPS)) {
        Ok(
            Answer::Sliced {
                traffic,
                outcome,
                ..
            },
        ) => Ok((traffic, outcome)),
        other => {
            drop(other);
            Err(AllocError)
        }
    }
}
