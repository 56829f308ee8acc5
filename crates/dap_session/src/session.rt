//! The session.
ghost use Rattle.std.specs.Prelude.{◌≡◌, true, None, IfOk, option_map};
ghost use Rattle.dap_run.specs.Bounds.{is_bounded, is_command_bounded};
ghost use Rattle.dap_session.specs.States as states;
ghost use Rattle.dap_session.specs.States.{SessionState, session_before_requests};
ghost use Rattle.dap_session.specs.Turns.{turn_of, refusing};
ghost use Rattle.dap_session.specs.Requests as requests;
ghost use Rattle.dap_session.specs.Requests.{turn, asking, asking_unless, objection};
ghost use Rattle.dap_session.specs.Requests.{on_board, on_editor};
ghost use Rattle.dap_prompt.specs.Inputs.{command_input, input_of};
ghost use Rattle.dap_prompt.specs.Effects.{effect_by, effect_done};
ghost use Rattle.dap_session.specs.Effects.{outcome_told, request_outcome};
ghost use Rattle.dap_session.specs.Slices.{request_told};
ghost use Rattle.dap_session.specs.Represents.{RepresentsSession, MakesAs, RepliesAs, TakesAs, TellsAs};

mod breakpoints;
mod evaluations;
mod history;
mod instructions;
mod launches;
mod memory;
mod on_data;
mod requests;
mod slices;
mod targets;

use crate::settings::{NO_EVENTS, SessionSettings};
use base_text::sequence::Sequence;
use dap_launch::file::FileText;
use dap_messages::message::Message;
use dap_points::points::WantedBreakpoints;
use dap_prompt::inputs::{command_input, ends_question};
use dap_prompt::outcome::{Effect, InputReply, RequestOutcome, outcome_of, without_input};
use dap_requests::request::{
    BoardCommand, EditorCommand, EditorRequest, LoadCommand, RequestContent,
};
use dap_run::life::NO_FILTERS;
use dap_run::messages::{Messages, RequestId};
use dap_run::refusals::request_refusal;
use dap_run::reply::{Reply, refuse};
use dap_slice::conditions::ConditionalBreakpoints;
use lab_core::lab::Lab;
use lab_core::run_state::RunState;
use std::alloc::{AllocError, Global};
use std::marker::Model;

/// A debugger's session: a board, and what the editor asked for so far. It represents some state.
pub struct Session {
    lab: Lab,
    settings: SessionSettings,
}

/// What the editor is told of a slice, and how many steps it made.
#[derive(Drop)]
pub struct RunSlice {
    pub messages: Sequence<Message>,
    pub executed: u16,
}

// One function for all places where a session is dropped, here and in the crates above.
impl Drop for Session {
    fn drop(self) {
        let Self {
            lab: _,
            settings: _,
        } = self;
    }
}

impl Model for Session {
    ghost use Rattle.std.specs.Coded.{codes};
    ghost use Rattle.asm_expr.specs.contracts.expression.Expr as expr;
    ghost use Rattle.dap_run.specs.Boards.{RepresentsSomeBoard};
    ghost use Rattle.dap_session.specs.Represents.{SessionFields};

    ghost Value = { SessionFields };

    ghost coded = { Prim.hlevel (codes, expr.the_row.coded) };

    ghost view = { λ s. record { lab = s.lab; settings = s.settings } };

    ghost invariant = { λ s. RepresentsSomeBoard s.lab };
}

impl Session {
    /// A session before its first request.
    pub fn new(alloc: Global) -> Result<Session, AllocError>
        ensures { IfOk result (λ session. RepresentsSession session session_before_requests) }
    {
        let points = WantedBreakpoints::new(alloc)?;
        let conditional = ConditionalBreakpoints::new(alloc)?;
        let lab = Lab::new(alloc)?;
        Ok(Session {
            lab,
            settings: SessionSettings {
                is_initialized: false,
                is_configured: false,
                supported: NO_EVENTS,
                program: None,
                points,
                conditional,
                filters: NO_FILTERS,
                waits: false,
                has_asked: false,
                has_ended: false,
            },
        })
    }

    /// Answers a request: returns its response and the events behind it, and what it did. `file` is what was
    /// found at the path that the request needs (`wanted_file`). If memory runs out the session stays as it
    /// was.
    pub fn take(
        &mut self,
        alloc: Global,
        request: EditorRequest,
        file: Option<FileText>,
    ) -> Result<RequestOutcome, AllocError>
        ensures { TakesAs (request_outcome request file) self.old result self.new }
    {
        let (seq, command, asked) = request.into_parts();
        let caller = RequestId { seq, command };
        let result = self.take_turn(alloc, caller, &asked, &file);
        drop(asked);
        drop(file);
        result
    }

    /// The same where nobody asks what it did.
    pub fn tell(
        &mut self,
        alloc: Global,
        request: EditorRequest,
        file: Option<FileText>,
    ) -> Result<Sequence<Message>, AllocError>
        ensures { TellsAs (request_told request file) self.old result self.new }
    {
        let outcome = self.take(alloc, request, file)?;
        let RequestOutcome { messages, effect } = outcome;
        drop(effect);
        Ok(messages)
    }

    // Answers a request, after which a run that waits is tried again.
    #[tactic(auto, unfolding(crate::specs::Requests::turn))]
    fn take_turn(
        &mut self,
        alloc: Global,
        caller: RequestId,
        asked: &RequestContent,
        file: &Option<FileText>,
    ) -> Result<RequestOutcome, AllocError>
        ensures { TakesAs (λ s. outcome_told caller (turn asked.now file.now s)
            (effect_done asked.now s.board)) self.old result self.new }
    {
        let outcome = self.answer_unless(alloc, caller, asked, file)?;
        self.note_answer(ends_question(asked));
        Ok(outcome)
    }

    fn note_answer(&mut self, is_typed: bool)
        ensures { (s : SessionState) → RepresentsSession self.old s
            → RepresentsSession self.new (states.after_answer is_typed s) }
    {
        self.settings.waits = false;
        if is_typed {
            self.settings.has_asked = false;
        }
    }

    // Answers a request, or refuses it if there is an objection.
    fn answer_unless(
        &mut self,
        alloc: Global,
        caller: RequestId,
        asked: &RequestContent,
        file: &Option<FileText>,
    ) -> Result<RequestOutcome, AllocError>
        ensures { TakesAs (λ s. outcome_told caller
            (asking_unless (objection asked.now s) asked.now file.now s) (effect_done asked.now s.board))
            self.old result self.new }
    {
        match self.objection(asked) {
            Some(text) => self.refuse(alloc, caller, text),
            None => self.answer(alloc, caller, asked, file),
        }
    }

    // Refuses a request with this text.
    fn refuse(
        &mut self,
        alloc: Global,
        caller: RequestId,
        text: &str,
    ) -> Result<RequestOutcome, AllocError>
        ensures { TakesAs (λ s. outcome_told caller (turn_of (refusing text.now s)) Effect.Refused)
            self.old result self.new }
    {
        let messages = Messages::new(alloc)?;
        let Reply { outcome, follow } = refuse(alloc, text)?;
        Ok(RequestOutcome {
            messages: messages.turn(caller, outcome, follow),
            effect: Effect::Refused,
        })
    }

    // The reply that refuses a request with this text.
    fn refuse_with(&self, alloc: Global, text: &str) -> Result<Reply, AllocError>
        ensures { RepliesAs (refusing text.now) self.now result self.now }
    {
        let reply = refuse(alloc, text)?;
        Ok(reply)
    }

    // The same for a request that may be an input.
    fn refuse_input(&self, alloc: Global, text: &str) -> Result<InputReply, AllocError>
        ensures { MakesAs (refusing text.now) (λ _. None) self.now result self.now }
    {
        let reply = self.refuse_with(alloc, text)?;
        Ok(without_input(reply))
    }

    // Answers a request to which there is no objection.
    fn answer(
        &mut self,
        alloc: Global,
        caller: RequestId,
        asked: &RequestContent,
        file: &Option<FileText>,
    ) -> Result<RequestOutcome, AllocError>
        requires { is_bounded asked.now ≡ true }
        ensures { TakesAs (λ s. outcome_told caller (asking asked.now file.now s)
            (effect_done asked.now s.board)) self.old result self.new }
    {
        match asked {
            RequestContent::Load(LoadCommand::Launch(launch)) => {
                self.launch(alloc, caller, launch, file)
            }
            RequestContent::Load(LoadCommand::Restart(changed)) => {
                self.restart(alloc, caller, changed, file)
            }
            RequestContent::Board(command) => self.answer_board(alloc, caller, command),
            RequestContent::Editor(command) => self.answer_editor(alloc, caller, command),
            RequestContent::Faulty(fault) => {
                let text = request_refusal(alloc, fault)?;
                self.refuse(alloc, caller, text.as_str())
            }
        }
    }

    // Room for the messages is made before anything changes.
    #[tactic(auto, using(crate::proofs::EffectLemmas::made_taken))]
    fn answer_board(
        &mut self,
        alloc: Global,
        caller: RequestId,
        command: &BoardCommand,
    ) -> Result<RequestOutcome, AllocError>
        ensures { TakesAs (λ s. outcome_told caller (turn_of (on_board command.now s))
            (effect_by (command_input command.now))) self.old result self.new }
    {
        let messages = Messages::new(alloc)?;
        let input = command_input(alloc, command)?;
        let reply = self.on_board(alloc, command)?;
        Ok(outcome_of(messages, caller, InputReply { reply, input }))
    }

    // The same.
    #[tactic(auto, using(crate::proofs::EffectLemmas::made_taken))]
    fn answer_editor(
        &mut self,
        alloc: Global,
        caller: RequestId,
        command: &EditorCommand,
    ) -> Result<RequestOutcome, AllocError>
        requires { is_command_bounded command.now ≡ true }
        ensures { TakesAs (λ s. outcome_told caller (turn_of (on_editor command.now s))
            (effect_by (input_of (RequestContent.Editor command.now) s.board))) self.old result self.new }
    {
        let messages = Messages::new(alloc)?;
        let made = self.on_editor(alloc, command)?;
        Ok(outcome_of(messages, caller, made))
    }

    /// Whether `run` has something to do: a run goes on, and no slice since the last request found it waiting
    /// for a button.
    pub fn wants_slice(&self) -> bool
        ensures { (s : SessionState) → RepresentsSession self.now s → result ≡ states.wants_slice s }
    {
        match self.lab.run_state() {
            RunState::Running => !self.settings.waits,
            RunState::NoRun | RunState::Stopped => false,
        }
    }

    /// The path whose text a request needs: that of a launch, or for a restart that of the program.
    pub fn wanted_file<'a>(&'a self, request: &'a EditorRequest) -> Option<&'a str>
        ensures { (s : SessionState) → RepresentsSession self.now s
            → option_map (λ path. path.now) result ≡ requests.wanted_file request.now.asked s }
    {
        match &request.asked {
            RequestContent::Load(LoadCommand::Launch(launch)) => Some(launch.program.as_str()),
            RequestContent::Load(LoadCommand::Restart(Some(launch))) => {
                Some(launch.program.as_str())
            }
            RequestContent::Load(LoadCommand::Restart(None)) => {
                let program = self.settings.program.as_ref()?;
                Some(program.launch.program.as_str())
            }
            RequestContent::Board(_) | RequestContent::Editor(_) | RequestContent::Faulty(_) =>
                None,
        }
    }

    /// Whether a watch may be a line of the prompt.
    pub fn has_watch_commands(&self) -> bool
        ensures { (s : SessionState) → RepresentsSession self.now s
            → result ≡ states.has_watch_commands s.settings.program }
    {
        match &self.settings.program {
            None => false,
            Some(program) => program.launch.has_watch_commands,
        }
    }

    /// Whether a `disconnect` was answered.
    pub fn has_ended(&self) -> bool
        ensures { (s : SessionState) → RepresentsSession self.now s → result ≡ s.settings.has_ended }
    {
        self.settings.has_ended
    }
}
