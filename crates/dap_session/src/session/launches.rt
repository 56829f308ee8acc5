//! How a program comes to the board, and begins.
ghost use Rattle.std.specs.Prelude.{◌≡◌, Some, OnErr, IfOk};
ghost use Rattle.lab_core.specs.Board.{Board};
ghost use Rattle.lab_core.specs.Labs.{RepresentsBoard};
ghost use Rattle.dap_run.specs.Boards.{RepresentsSomeBoard};
ghost use Rattle.dap_session.specs.Launches.{beginning_where, started_follow, installing, loading, launching};
ghost use Rattle.dap_session.specs.Launches.{restarting, loading_file};
ghost use Rattle.dap_session.specs.Effects.{outcome_told};
ghost use Rattle.dap_session.specs.Slices.{told_by};
ghost use Rattle.dap_session.specs.States.{SessionState, with_board, with_program, with_conditional};
ghost use Rattle.dap_session.specs.Represents.{RepresentsSession, RepliesAs, Takes, TakesAs};

use crate::session::Session;
use base_text::sequence::Sequence;
use base_text::text::Text;
use dap_breakpoints::arming::arm_program;
use dap_breakpoints::report::all_changed;
use dap_launch::failure::failure;
use dap_launch::file::{FileText, program_text};
use dap_launch::load::{LoadFault, Loaded, load};
use dap_launch::opening::{LoadReason, Opening, begun_follow, opening_messages};
use dap_launch::program::{begin_if, begin_program, copy_launch};
use dap_messages::message::Message;
use dap_prompt::outcome::{Effect, RequestOutcome};
use dap_requests::request::Launch;
use dap_run::messages::{FollowUp, RequestId};
use dap_run::program::{LoadedProgram, Phase, Program};
use dap_run::reply::{Reply, accept};
use dap_slice::conditions::ConditionalBreakpoints;
use std::alloc::{AllocError, Global};

impl Session {
    // Begins the program, if one is loaded that hasn't begun.
    pub(super) fn begin_where_loaded(&mut self, alloc: Global) -> Result<Reply, AllocError>
        ensures { RepliesAs (λ s. beginning_where s.settings.program s) self.old result self.new }
    {
        match &mut self.settings.program {
            None => Ok(accept(FollowUp::Nothing)),
            Some(program) => match program.phase {
                Phase::Loaded => {
                    begin_program(alloc, &mut self.lab, program)?;
                    program.phase = Phase::Begun;
                    Ok(accept(begun_follow(LoadReason::Launch, &program.launch)))
                }
                Phase::Begun | Phase::Held(_) | Phase::Over => Ok(accept(FollowUp::Nothing)),
            },
        }
    }

    pub(super) fn launch(
        &mut self,
        alloc: Global,
        caller: RequestId,
        launch: &Launch,
        file: &Option<FileText>,
    ) -> Result<RequestOutcome, AllocError>
        ensures { TakesAs (λ s. outcome_told caller (launching launch.now file.now s) Effect.Loaded)
            self.old result self.new }
    {
        if self.settings.program.is_some() {
            return self.refuse(alloc, caller, "launched already");
        }
        let launch = copy_launch(launch)?;
        let cause = LoadReason::Launch;
        self.load_file(alloc, Opening { caller, cause }, launch, file)
    }

    pub(super) fn restart(
        &mut self,
        alloc: Global,
        caller: RequestId,
        changed: &Option<Launch>,
        file: &Option<FileText>,
    ) -> Result<RequestOutcome, AllocError>
        ensures { TakesAs (λ s. outcome_told caller (restarting changed.now file.now s) Effect.Loaded)
            self.old result self.new }
    {
        let Some(program) = &self.settings.program else {
            return self.refuse(alloc, caller, "nothing is launched");
        };
        let launch = match changed {
            Some(launch) => copy_launch(launch)?,
            None => copy_launch(&program.launch)?,
        };
        let cause = LoadReason::Restart;
        self.load_file(alloc, Opening { caller, cause }, launch, file)
    }

    // Loads the program in a launch's file in place of what is on the board.
    fn load_file(
        &mut self,
        alloc: Global,
        opening: Opening,
        launch: Launch,
        file: &Option<FileText>,
    ) -> Result<RequestOutcome, AllocError>
        ensures { TakesAs (λ s. outcome_told opening.caller
            (loading_file opening.cause launch file.now s) Effect.Loaded) self.old result self.new }
    {
        match program_text(alloc, &launch, file)? {
            Ok(text) => self.load(alloc, opening, launch, &text),
            Err(message) => self.refuse(alloc, opening.caller, message.as_str()),
        }
    }

    // Loads a program in place of what is on the board.
    fn load(
        &mut self,
        alloc: Global,
        opening: Opening,
        launch: Launch,
        text: &Text,
    ) -> Result<RequestOutcome, AllocError>
        ensures { TakesAs (λ s. outcome_told opening.caller
            (loading opening.cause launch text.now s) Effect.Loaded) self.old result self.new }
    {
        match load(alloc, &launch, text) {
            Ok(Loaded { lab, start }) => {
                let program = Program {
                    launch,
                    start,
                    phase: Phase::Loaded,
                };
                self.install(alloc, opening, LoadedProgram { program, lab })
            }
            Err(LoadFault::OutOfMemory) => Err(AllocError),
            Err(fault) => {
                let messages = failure(
                    alloc,
                    opening.caller,
                    &launch.program,
                    text.as_str(),
                    fault,
                )?;
                Ok(RequestOutcome {
                    messages,
                    effect: Effect::Refused,
                })
            }
        }
    }

    fn started_follow(&self, cause: LoadReason, program: &Program) -> FollowUp
        ensures { (s : SessionState) → RepresentsSession self.now s
            → result ≡ started_follow cause program.now s }
    {
        if self.settings.is_configured {
            begun_follow(cause, &program.launch)
        } else {
            FollowUp::Nothing
        }
    }

    // What the editor is told when a loaded program takes the place of what was on the board.
    fn opening_messages(
        &self,
        alloc: Global,
        opening: Opening,
        loaded: &LoadedProgram,
    ) -> Result<Sequence<Message>, AllocError>
        ensures { (s : SessionState) (b : Board) → RepresentsSession self.now s
            → RepresentsBoard loaded.now.lab b
            → IfOk result (λ messages. messages
            ≡ told_by opening.caller (installing opening.cause loaded.now.program b s)) }
    {
        let Opening { caller, cause } = opening;
        let settings = &self.settings;
        let changed = all_changed(
            alloc,
            &settings.program,
            &self.lab,
            loaded,
            &settings.points,
        )?;
        let follow = self.started_follow(cause, &loaded.program);
        opening_messages(alloc, caller, cause, changed, follow)
    }

    // Puts a loaded program in the place of what was on the board. These of its breakpoints have conditions.
    fn put(&mut self, loaded: LoadedProgram, points: ConditionalBreakpoints)
        requires { RepresentsSomeBoard loaded.lab }
        ensures { (s : SessionState) (b : Board) → RepresentsSession self.old s → RepresentsBoard loaded.lab b
            → RepresentsSession self.new (with_board b
            (with_conditional points (with_program (Some loaded.program) s))) }
    {
        let LoadedProgram { program, lab } = loaded;
        self.lab = lab;
        self.settings.program = Some(program);
        self.settings.conditional = points;
    }

    // Puts a loaded program in the place of what was on the board, after it began if the configuration is
    // done. All messages are made before.
    fn install(
        &mut self,
        alloc: Global,
        opening: Opening,
        mut loaded: LoadedProgram,
    ) -> Result<RequestOutcome, AllocError>
        requires { RepresentsSomeBoard loaded.lab }
        ensures installed { (s : SessionState) (b : Board) → RepresentsSession self.old s
            → RepresentsBoard loaded.lab b
            → IfOk result (λ outcome. Takes
            (outcome_told opening.caller (installing opening.cause loaded.program b s) Effect.Loaded)
            outcome self.new) }
        ensures err { OnErr result (self.new ≡ self.old) }
    {
        let messages = self.opening_messages(alloc, opening, &loaded)?;
        let points = arm_program(
            alloc,
            &mut loaded.lab,
            &loaded.program,
            &self.settings.points,
        )?;
        begin_if(alloc, &mut loaded, self.settings.is_configured)?;
        self.put(loaded, points);
        Ok(RequestOutcome {
            messages,
            effect: Effect::Loaded,
        })
    }
}
