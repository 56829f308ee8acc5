//! Slices of the run.
ghost use Rattle.std.specs.Prelude.{◌≡◌, ◌≤◌, IfOk, OnErr};
ghost use Rattle.dap_session.specs.States.{SessionState};
ghost use Rattle.dap_session.specs.Slices.{slice_told, settings_after, with_question};
ghost use Rattle.dap_session.specs.Represents.{RepresentsSession, TellsAs, WantsSlice, SlicesWithin};

use crate::session::{RunSlice, Session};
use base_text::sequence::Sequence;
use dap_messages::message::Message;
use dap_run::life::{held_ends, note_end};
use dap_run::slice::{Slice, make_slice};
use lab_core::answer::SliceOutcome;
use lab_core::run_slice::STEPS;
use std::alloc::{AllocError, Global};

impl Session {
    /// Makes at most 4,096 steps of the run, if one goes on, and returns what the editor is told of them.
    #[tactic(auto, unfolding(crate::specs::Slices::slice_told))]
    pub fn run(&mut self, alloc: Global) -> Result<Sequence<Message>, AllocError>
        ensures { TellsAs slice_told self.old result self.new }
    {
        if !self.wants_slice() {
            return Ok(Sequence::new(alloc));
        }
        let RunSlice {
            messages,
            executed: _,
        } = self.run_within(alloc, STEPS)?;
        Ok(messages)
    }

    /// Makes at most `limit` steps of a run that goes on, from 1 to 4,096.
    pub fn run_within(&mut self, alloc: Global, limit: u16) -> Result<RunSlice, AllocError>
        requires { (1 ≤ limit) × (limit ≤ 4096) × WantsSlice self.old }
        ensures ok { (s : SessionState) → RepresentsSession self.old s
            → IfOk result (λ slice. SlicesWithin limit s slice self.new) }
        ensures err { OnErr result (self.new ≡ self.old) }
    {
        let settings = &mut self.settings;
        let held = held_ends(settings.filters, &settings.program);
        let points = &mut settings.conditional;
        let slice = make_slice(
            alloc,
            &mut self.lab,
            points,
            limit,
            held,
            settings.has_asked,
        )?;
        let Slice {
            messages,
            executed,
            asks_line,
            outcome,
        } = slice;
        self.leave(asks_line, outcome);
        Ok(RunSlice { messages, executed })
    }

    // Notes in the settings whether the program asked for a line in a slice, and how that ended.
    fn leave(&mut self, asks_line: bool, outcome: SliceOutcome)
        ensures { self.new ≡ record self.old {
          settings = settings_after outcome (with_question asks_line self.old.settings);
        } }
    {
        if asks_line {
            self.settings.has_asked = true;
        }
        match outcome {
            SliceOutcome::More | SliceOutcome::Stop(_) => {}
            SliceOutcome::Waiting => self.settings.waits = true,
            SliceOutcome::End(end) => {
                note_end(&mut self.settings.program, self.settings.filters, end)
            }
        }
    }
}
