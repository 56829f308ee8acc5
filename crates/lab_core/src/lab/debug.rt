//! The debugger's events: pausing and continuing a run, breakpoints, views.
ghost use Rattle.std.specs.Prelude.{◌≡◌, Err, map, IfOk, OnErr};
ghost use Rattle.lab_core.specs.Board.{Board};
ghost use Rattle.lab_core.specs.Events.{going_on, is_stopped, breakpoint_at, parts_of};
ghost use Rattle.lab_core.specs.Labs.{RepresentsBoard, AppliesTo};
ghost use Rattle.lab_core.specs.Memory.{MayLackMemory};
ghost use Rattle.lab_views.specs.Parts as views;

use crate::answer::Answer;
use crate::event::{Event, StepRequest};
use crate::fault::EventFault;
use crate::lab::Lab;
use crate::run_state::RunState;
use base_text::sequence::Sequence;
use lab_image::lines::line_count;
use lab_shown::shown::Breakpoint;
use lab_views::parts::Parts;
use lab_views::view::View;
use lab_views::views::show;
use std::alloc::{AllocError, Global};

// A breakpoint for each line. It is verified if the text has that line.
fn verify(alloc: Global, text: &str, lines: &[u32]) -> Result<Sequence<Breakpoint>, AllocError>
    ensures { IfOk result (λ breakpoints. breakpoints ≡ map (breakpoint_at text.now) lines.now) }
{
    let count = line_count(text);
    let mut breakpoints = Sequence::new(alloc);
    for line in lines {
        breakpoints.push(Breakpoint {
            line: *line,
            is_verified: 1 <= *line && *line as usize <= count,
        })?;
    }
    Ok(breakpoints)
}

fn is_stopped(run: RunState) -> bool
    ensures { result ≡ is_stopped run }
{
    matches!(run, RunState::Stopped)
}

impl Lab {
    pub(super) fn pause(&mut self) -> Result<Answer, EventFault>
        ensures applied { AppliesTo self.old Event.Pause result self.new }
        ensures err { OnErr result (self.new ≡ self.old) }
        ensures memory { result ≡ Err EventFault.OutOfMemory → MayLackMemory Event.Pause self.old }
    {
        if !self.context.is_attached {
            return Err(EventFault::NotAttached);
        }
        match self.run_state {
            RunState::NoRun | RunState::Stopped => Err(EventFault::NotRunning),
            RunState::Running => {
                self.run_state = RunState::Stopped;
                self.context.request = None;
                Ok(Answer::Accepted)
            }
        }
    }

    pub(super) fn resume(&mut self) -> Result<Answer, EventFault>
        ensures applied { AppliesTo self.old Event.Resume result self.new }
        ensures err { OnErr result (self.new ≡ self.old) }
        ensures memory { result ≡ Err EventFault.OutOfMemory → MayLackMemory Event.Resume self.old }
    {
        match self.run_state {
            RunState::NoRun | RunState::Running => Err(EventFault::NotStopped),
            RunState::Stopped => {
                self.go_on(None);
                Ok(Answer::Accepted)
            }
        }
    }

    pub(super) fn step_on(&mut self, request: StepRequest) -> Result<Answer, EventFault>
        ensures applied { AppliesTo self.old (Event.Step request) result self.new }
        ensures err { OnErr result (self.new ≡ self.old) }
        ensures memory { result ≡ Err EventFault.OutOfMemory → MayLackMemory (Event.Step request) self.old }
    {
        match self.run_state {
            RunState::NoRun | RunState::Running => Err(EventFault::NotStopped),
            RunState::Stopped => {
                self.go_on(Some(request));
                Ok(Answer::Accepted)
            }
        }
    }

    // Continues the run, and resets what a Step counts by.
    fn go_on(&mut self, request: Option<StepRequest>)
        ensures { (b : Board) → RepresentsBoard self.old b → RepresentsBoard self.new (going_on request b) }
    {
        self.run_state = RunState::Running;
        self.context.is_resumed = true;
        self.context.has_moved = false;
        self.context.request = request;
        self.context.older = self.context.frames.len();
        self.context.innermost = self.context.frames.newest();
        self.context.is_gone = false;
    }

    pub(super) fn set_breakpoints(
        &mut self,
        path: &str,
        lines: &[u32],
    ) -> Result<Answer, EventFault>
        ensures applied { AppliesTo self.old (Event.SetBreakpoints path.now lines.now) result self.new }
        ensures err { OnErr result (self.new ≡ self.old) }
        ensures memory { result ≡ Err EventFault.OutOfMemory
            → MayLackMemory (Event.SetBreakpoints path.now lines.now) self.old }
    {
        match self.sources.find(path) {
            None => Err(EventFault::NoSource),
            Some((number, text)) => {
                let answer = verify(self.alloc, text, lines)?;
                self.context
                    .breakpoints
                    .set(number as u32, lines, &self.context.origins)?;
                Ok(Answer::Breakpoints(answer))
            }
        }
    }

    pub(super) fn attach(&mut self) -> Result<Answer, EventFault>
        ensures applied { AppliesTo self.old Event.Attach result self.new }
        ensures err { OnErr result (self.new ≡ self.old) }
        ensures memory { result ≡ Err EventFault.OutOfMemory → MayLackMemory Event.Attach self.old }
    {
        self.context.is_attached = true;
        Ok(Answer::Accepted)
    }

    pub(super) fn detach(&mut self) -> Result<Answer, EventFault>
        ensures applied { AppliesTo self.old Event.Detach result self.new }
        ensures err { OnErr result (self.new ≡ self.old) }
        ensures memory { result ≡ Err EventFault.OutOfMemory → MayLackMemory Event.Detach self.old }
    {
        self.context.is_attached = false;
        self.context.breakpoints.clear();
        self.context.request = None;
        self.run_state = match self.run_state {
            RunState::NoRun => RunState::NoRun,
            RunState::Running | RunState::Stopped => RunState::Running,
        };
        Ok(Answer::Accepted)
    }

    pub(super) fn show(&mut self, view: &View) -> Result<Answer, EventFault>
        ensures applied { AppliesTo self.old (Event.Show view.now) result self.new }
        ensures err { OnErr result (self.new ≡ self.old) }
        ensures memory { result ≡ Err EventFault.OutOfMemory → MayLackMemory (Event.Show view.now) self.old }
    {
        let parts = self.parts();
        let shown = show(self.alloc, &parts, view)?;
        Ok(Answer::Shown(shown))
    }

    fn parts(&self) -> Parts<'_>
        ensures { (b : Board) → RepresentsBoard self.now b → views.RepresentsParts result (parts_of b) }
    {
        Parts {
            machine: &self.machine,
            devices: &self.context.devices,
            frames: &self.context.frames,
            origins: &self.context.origins,
            symbols: &self.symbols,
            sources: &self.sources,
            breakpoints: self.context.breakpoints.lists(),
            is_attached: self.context.is_attached,
            is_stopped: is_stopped(self.run_state),
        }
    }
}
