//! Slices of a run.
ghost use Rattle.std.specs.Prelude.{◌≡◌, ◌≤◌, List, Err, OnErr};
ghost use Rattle.i80_base.specs.declared.ports.PortOperation.{PortOperation};
ghost use Rattle.lab_core.specs.Board.{Board};
ghost use Rattle.lab_core.specs.Slices.{IsSlice, after_steps, traffic_of, left_by};
ghost use Rattle.lab_core.specs.Labs.{RepresentsBoard, RepresentsDuringSlice, AppliesTo, Watches};
ghost use Rattle.lab_core.specs.Memory.{MayLackMemory};

use crate::answer::{Answer, SliceOutcome};
use crate::event::Event;
use crate::fault::EventFault;
use crate::lab::Lab;
use crate::run_state::RunState;

impl Lab {
    /// Executes at most `n` steps of the run. Space for their port operations is reserved first.
    pub(super) fn slice(&mut self, n: u16) -> Result<Answer, EventFault>
        ensures applied { AppliesTo self.old (Event.Slice n) result self.new }
        ensures err { OnErr result (self.new ≡ self.old) }
        ensures memory { result ≡ Err EventFault.OutOfMemory → MayLackMemory (Event.Slice n) self.old }
    {
        match self.run_state {
            RunState::NoRun | RunState::Stopped => Err(EventFault::NotRunning),
            RunState::Running => {
                self.context.devices.reserve_out(n.into())?;
                let (executed, outcome) = self.run_on(n);
                let traffic = self.context.devices.take_out();
                Ok(Answer::Sliced {
                    executed,
                    traffic,
                    outcome,
                })
            }
        }
    }

    // The slice's steps. Without a debugger and a Step, neither breakpoints nor Steps are checked for.
    fn run_on(&mut self, n: u16) -> (u16, SliceOutcome)
        requires { n ≤ self.old.devices.spare }
        ensures slice { (b : Board) → RepresentsBoard self.old b → IsSlice n b result.0 result.1 }
        ensures represents { (b : Board) → RepresentsBoard self.old b
            → RepresentsDuringSlice self.new (left_by result.1 (after_steps result.0 b)) (traffic_of
            result.0 b) }
    {
        let (executed, outcome) = self.steps(n, self.is_watched());
        self.leave(outcome);
        (executed, outcome)
    }

    /// Whether a debugger is attached or a Step is pending.
    pub(super) fn is_watched(&self) -> bool
        ensures { Watches result self.now.is_attached self.now.request }
    {
        self.context.is_attached || self.context.request.is_some()
    }

    fn steps(&mut self, n: u16, is_watched: bool) -> (u16, SliceOutcome)
        requires room { n ≤ self.old.devices.spare }
        requires watched { Watches is_watched self.old.is_attached self.old.request }
        ensures slice { (b : Board) → RepresentsBoard self.old b → IsSlice n b result.0 result.1 }
        ensures represents { (b : Board) → RepresentsBoard self.old b
            → RepresentsDuringSlice self.new (after_steps result.0 b) (traffic_of result.0 b) }
    {
        self.context
            .steps(&mut self.machine, &mut self.scratch, n, is_watched)
    }

    /// Stops or ends the run if the slice did.
    pub(super) fn leave(&mut self, outcome: SliceOutcome)
        ensures { (b : Board) (traffic : List PortOperation) → RepresentsDuringSlice self.old b traffic
            → RepresentsDuringSlice self.new (left_by outcome b) traffic }
    {
        match outcome {
            SliceOutcome::More => {}
            SliceOutcome::Waiting => {}
            SliceOutcome::Stop(_) => {
                self.run_state = RunState::Stopped;
                self.context.request = None;
            }
            SliceOutcome::End(_) => {
                self.run_state = RunState::NoRun;
                self.context.request = None;
            }
        }
    }
}
