//! Requests, but for those that have a file of their own.
ghost use Rattle.std.specs.Prelude.{◌≡◌, IfOk, option_map, true, None, ◌≢◌};
ghost use Rattle.dap_run.specs.Refusals.{board_refusal};
ghost use Rattle.dap_run.specs.Boards.{after, board_result};
ghost use Rattle.dap_run.specs.Bounds.{is_bounded, is_command_bounded};
ghost use Rattle.dap_session.specs.States.{SessionState, with_board, program_over};
ghost use Rattle.dap_session.specs.Turns.{change_follow};
ghost use Rattle.dap_session.specs.Requests.{bound_refusal, objection, performing, resuming};
ghost use Rattle.dap_session.specs.Requests.{finish_done, resetting};
ghost use Rattle.dap_session.specs.Requests.{terminating, initializing, configuring, disconnecting};
ghost use Rattle.dap_session.specs.Requests.{on_board, on_editor, end_follow};
ghost use Rattle.dap_prompt.specs.Inputs.{input_of};
ghost use Rattle.dap_session.specs.Represents.{RepresentsSession, MakesAs, RepliesAs, Replies};

use crate::session::Session;
use base_text::sequence::Sequence;
use dap_answers::answer::StopReason;
use dap_messages::message::{EditorBody, EditorOutcome, EditorStop, Numbering};
use dap_prompt::outcome::{InputReply, without_input};
use dap_requests::request::{BoardCommand, EditorCommand, RequestContent, SupportedEvents};
use dap_requests::traits::traits_of;
use dap_run::board::perform_command;
use dap_run::bounds::is_bounded;
use dap_run::change::change_surely;
use dap_run::end::exit_code;
use dap_run::life::{end_of, end_program, exception_of, is_live};
use dap_run::messages::FollowUp;
use dap_run::refusals::board_refusal;
use dap_run::reply::{Reply, accept, refuse, succeed};
use lab_core::event::Event;
use lab_core::fault::EventFault;
use std::alloc::{AllocError, Global};

// The reply to what a board refuses. Running out of memory is an error of its own.
pub(super) fn refuse_for(alloc: Global, fault: EventFault) -> Result<Reply, AllocError>
    ensures refused { IfOk result (λ reply. reply
        ≡ record { outcome = EditorOutcome.Refused (board_refusal fault); follow = FollowUp.Nothing }) }
    ensures other { IfOk result (λ _. fault ≢ EventFault.OutOfMemory) }
{
    if matches!(fault, EventFault::OutOfMemory) {
        return Err(AllocError);
    }
    let reply = refuse(alloc, board_refusal(fault))?;
    Ok(reply)
}

// Why a request is refused that isn't bounded.
fn bound_refusal(asked: &RequestContent) -> &'static str
    ensures { result.now ≡ bound_refusal asked.now }
{
    match asked {
        RequestContent::Editor(EditorCommand::Memory(_)) => "bad arguments: instructionOffset",
        _ => "bad arguments",
    }
}

impl Session {
    // What there is to object to a request, whatever it asks for.
    pub(super) fn objection(&self, asked: &RequestContent) -> Option<&'static str>
        ensures objection { (s : SessionState) → RepresentsSession self.now s
            → option_map (λ text. text.now) result ≡ objection asked.now s }
        ensures fits { result ≡ None → is_bounded asked.now ≡ true }
    {
        if !(self.settings.is_initialized || traits_of(asked).opens) {
            return Some("not initialized");
        }
        if !is_bounded(asked) {
            return Some(bound_refusal(asked));
        }
        None
    }

    // What follows a change by hand.
    pub(super) fn change_follow(&self) -> FollowUp
        ensures { (s : SessionState) → RepresentsSession self.now s → result ≡ change_follow s }
    {
        if is_live(&self.settings.program) {
            FollowUp::Changed(self.settings.supported)
        } else {
            FollowUp::Nothing
        }
    }

    // Performs a command of the board. `follow` says which event comes behind the response.
    pub(super) fn perform(
        &mut self,
        alloc: Global,
        command: &BoardCommand,
        follow: FollowUp,
    ) -> Result<Reply, AllocError>
        ensures { RepliesAs (performing command.now follow) self.old result self.new }
    {
        match perform_command(alloc, &mut self.lab, command) {
            Ok(body) => Ok(succeed(EditorBody::Board(body), follow)),
            Err(fault) => refuse_for(alloc, fault),
        }
    }

    // Lets the run go on. A program whose run is held at its end is over then.
    fn resume(&mut self, alloc: Global, command: &BoardCommand) -> Result<Reply, AllocError>
        ensures { RepliesAs (resuming command.now) self.old result self.new }
    {
        match end_of(&self.settings.program) {
            None => self.perform(alloc, command, FollowUp::Continued),
            Some(end) => self.finish(alloc, command, exit_code(end)),
        }
    }

    // Performs a command that lets a run go on, and ends the program.
    fn finish(
        &mut self,
        alloc: Global,
        command: &BoardCommand,
        code: u8,
    ) -> Result<Reply, AllocError>
        ensures { RepliesAs (λ s. finish_done (board_result command.now s.board) code s)
            self.old result self.new }
    {
        match perform_command(alloc, &mut self.lab, command) {
            Ok(body) => {
                self.end_run();
                Ok(succeed(EditorBody::Board(body), FollowUp::Ended(code)))
            }
            Err(fault) => refuse_for(alloc, fault),
        }
    }

    // Ends the run and the program, if there are some.
    fn end_run(&mut self)
        ensures { (s : SessionState) → RepresentsSession self.old s → RepresentsSession self.new
            (program_over (with_board (after Event.Interrupt s.board) s)) }
    {
        change_surely(&mut self.lab, Event::Interrupt);
        end_program(&mut self.settings.program);
    }

    // What ended the run that is held at its end.
    fn explain(&self, alloc: Global) -> Result<InputReply, AllocError>
        ensures { MakesAs (on_editor EditorCommand.ExceptionInfo) (λ _. None) self.now result self.now }
    {
        match exception_of(&self.settings.program) {
            None => self.refuse_input(alloc, "the program is stopped at no exception"),
            Some(undefined) => {
                let reply = succeed(EditorBody::Exception(undefined), FollowUp::Nothing);
                Ok(without_input(reply))
            }
        }
    }

    pub(super) fn on_board(
        &mut self,
        alloc: Global,
        command: &BoardCommand,
    ) -> Result<Reply, AllocError>
        ensures { RepliesAs (on_board command.now) self.old result self.new }
    {
        match command {
            BoardCommand::Attach => self.refuse_with(
                alloc,
                "attach is not supported: launch a program",
            ),
            BoardCommand::Disconnect => Ok(self.disconnect()),
            BoardCommand::ConfigurationDone => self.configure(alloc),
            BoardCommand::BoardReset => self.reset(alloc),
            BoardCommand::Continue | BoardCommand::Step { .. } => self.resume(alloc, command),
            BoardCommand::Pause => {
                let stop = EditorStop::Board(StopReason::Pause);
                self.perform(alloc, command, FollowUp::Stopped(stop))
            }
            BoardCommand::BoardSwitches(_)
            | BoardCommand::BoardPress(_)
            | BoardCommand::BoardType(_)
            | BoardCommand::BoardAliases(_) => {
                let follow = self.change_follow();
                self.perform(alloc, command, follow)
            }
            BoardCommand::Threads
            | BoardCommand::StackTrace { .. }
            | BoardCommand::Source(_)
            | BoardCommand::DumpCell(_)
            | BoardCommand::DebugInfo
            | BoardCommand::InspectVariables => self.perform(alloc, command, FollowUp::Nothing),
        }
    }

    pub(super) fn on_editor(
        &mut self,
        alloc: Global,
        command: &EditorCommand,
    ) -> Result<InputReply, AllocError>
        requires { is_command_bounded command.now ≡ true }
        ensures { MakesAs (on_editor command.now) (λ s. input_of (RequestContent.Editor command.now) s.board)
            self.old result self.new }
    {
        match command {
            EditorCommand::Initialize {
                supported,
                numbering,
            } => self.initialize(alloc, *supported, *numbering),
            EditorCommand::Terminate => Ok(without_input(self.terminate())),
            EditorCommand::ExceptionInfo => self.explain(alloc),
            EditorCommand::Evaluate {
                expression,
                context,
                format,
            } => self.evaluate(alloc, expression.as_str(), *context, *format),
            EditorCommand::LoadedSources => self.list_sources(alloc),
            EditorCommand::StepBack(_) | EditorCommand::ReverseContinue => {
                self.refuse_input(alloc, "unknown command")
            }
            EditorCommand::Goto { target } => self.go_to(alloc, *target),
            EditorCommand::OnSource { path, command } => {
                let reply = self.on_source(alloc, path, command)?;
                Ok(without_input(reply))
            }
            EditorCommand::Breakpoints(command) => {
                let reply = self.on_breakpoints(alloc, command)?;
                Ok(without_input(reply))
            }
            EditorCommand::Memory(command) => self.on_memory(alloc, command),
            EditorCommand::Variables(command) => self.handle(alloc, command),
        }
    }

    fn initialize(
        &mut self,
        alloc: Global,
        supported: SupportedEvents,
        numbering: Numbering,
    ) -> Result<InputReply, AllocError>
        ensures { MakesAs (initializing supported numbering) (λ _. None) self.old result self.new }
    {
        if self.settings.is_initialized {
            return self.refuse_input(alloc, "initialized already");
        }
        self.settings.is_initialized = true;
        self.settings.supported = supported;
        let reply = succeed(EditorBody::Capabilities(numbering), FollowUp::Nothing);
        Ok(without_input(reply))
    }

    fn disconnect(&mut self) -> Reply
        ensures { (s : SessionState) → RepresentsSession self.old s
            → Replies (disconnecting s) result self.new }
    {
        self.settings.has_ended = true;
        accept(FollowUp::Nothing)
    }

    fn configure(&mut self, alloc: Global) -> Result<Reply, AllocError>
        ensures { RepliesAs configuring self.old result self.new }
    {
        let reply = self.begin_where_loaded(alloc)?;
        self.settings.is_configured = true;
        Ok(reply)
    }

    // The event behind the response to a request that ends the program.
    fn end_follow(&self) -> FollowUp
        ensures { (s : SessionState) → RepresentsSession self.now s → result ≡ end_follow s }
    {
        if is_live(&self.settings.program) {
            FollowUp::Ended(1)
        } else {
            FollowUp::Nothing
        }
    }

    fn reset(&mut self, alloc: Global) -> Result<Reply, AllocError>
        ensures { RepliesAs resetting self.old result self.new }
    {
        let follow = self.end_follow();
        let reply = self.perform(alloc, &BoardCommand::BoardReset, follow)?;
        end_program(&mut self.settings.program);
        Ok(reply)
    }

    fn terminate(&mut self) -> Reply
        ensures { (s : SessionState) → RepresentsSession self.old s
            → Replies (terminating s) result self.new }
    {
        let follow = self.end_follow();
        self.end_run();
        accept(follow)
    }

    fn list_sources(&self, alloc: Global) -> Result<InputReply, AllocError>
        ensures { MakesAs (on_editor EditorCommand.LoadedSources) (λ _. None) self.now result self.now }
    {
        let mut paths = Sequence::new(alloc);
        if let Some(program) = &self.settings.program {
            paths.push(program.launch.program.clone()?)?;
        }
        let reply = succeed(EditorBody::Sources(paths), FollowUp::Nothing);
        Ok(without_input(reply))
    }
}
