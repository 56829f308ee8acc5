//! Requests other than debug requests.
ghost use Rattle.std.specs.Prelude.{◌≡◌, ◌∷◌, ◌++◌, [], IfOk, OnOk, OnErr, if◌then◌else◌, option_map};
ghost use Rattle.kern_exec.specs.Letters.{between_busy_and_idle, publication};
ghost use Rattle.kern_exec.specs.Executions.{clear_current};
ghost use Rattle.kern_exec.specs.Ends.{end_letters};
ghost use Rattle.kern_exec.specs.Prepared.{IsBusyIdle, prepared_end};
ghost use Rattle.kern_exec.specs.Boards.{is_run};
ghost use Rattle.kern_core.specs.Requests.{reply_to, replying, executing, cut_of, cut_letters};
ghost use Rattle.kern_core.specs.Requests.{interrupting, shutting, typing, closing, passing, ignore_request};
ghost use Rattle.kern_core.specs.Requests.{other, arriving, with_board, cut_work};
ghost use Rattle.lab_core.specs.Events.{reset as reset_of};
ghost use Rattle.kern_core.specs.States.{KernelState as KernelStateOf, after, posting};
ghost use Rattle.kern_core.specs.Represents.{RepresentsKernel, TakesTurn, HasRoom, Grows};

use crate::replies::plain_reply;
use crate::state::KernelState;
use crate::state::connections::is_iopub;
use base_text::sequence::Bytes;
use base_text::text::Text;
use kern_calls::call::Reply;
use kern_calls::fault::KernelFault;
use kern_exec::ends::{PreparedEnd, cut_letters, prepare_end, push_end};
use kern_exec::execution::Execution;
use kern_exec::letters::{BusyIdle, busy_idle, publish, reply};
use kern_exec::runs::{interrupt, reset, type_bytes};
use kern_post::content::{Cause, Content, Ending, ExecutionState};
use kern_post::letters::Letters;
use kern_post::post::{Letter, copy_bytes};
use kern_request::request::{ExecuteRequest, NeedyRequest, Request, RequestBody};
use lab_core::run_state::RunState;
use std::alloc::AllocError;

impl KernelState {
    /// Whether there is a run.
    pub(super) fn has_run(&self) -> bool
        ensures { (s : KernelStateOf) → RepresentsKernel self.now s → result ≡ is_run s.board.run }
    {
        match self.lab.run_state() {
            RunState::NoRun => false,
            RunState::Running | RunState::Stopped => true,
        }
    }

    pub(super) fn arrive(
        &mut self,
        connection: u32,
        request: &Request,
        unix_seconds: u64,
    ) -> Result<Reply, KernelFault>
        requires { HasRoom self.old }
        ensures { TakesTurn (arriving connection request.now unix_seconds) self.old result self.new }
    {
        let Some(peer) = self.peers.get(connection) else {
            return Err(KernelFault::NoConnection);
        };
        if is_iopub(peer.channel) {
            return Err(KernelFault::NoConnection);
        }
        let identity = copy_bytes(&peer.identity)?;
        match plain_reply(self.alloc, &request.body, self.executions.count())? {
            Some(content) => self.reply(connection, request, content, unix_seconds),
            None => self.other(connection, identity, request, unix_seconds),
        }
    }

    // The reply to a request.
    pub(super) fn reply_to(
        &self,
        connection: u32,
        request: &Request,
        content: Content,
    ) -> Result<Letter, AllocError>
        ensures { IfOk result (λ letter. letter ≡ reply_to connection request.now content) }
    {
        reply(
            self.alloc,
            connection,
            &request.identities,
            &request.header,
            content,
        )
    }

    // A letter between busy and idle.
    fn enclose(&self, header: &Bytes, letter: Letter) -> Result<Letters, AllocError>
        ensures { IfOk result (λ letters. letters
            ≡ between_busy_and_idle self.now.connections header.now (letter ∷ [])) }
    {
        match busy_idle(self.alloc, &self.peers, header) {
            Ok(BusyIdle { mut letters, idle }) => {
                letters.push(letter);
                letters.push(idle);
                Ok(letters)
            }
            Err(_) => {
                drop(letter);
                Err(AllocError)
            }
        }
    }

    fn reply(
        &mut self,
        connection: u32,
        request: &Request,
        content: Content,
        unix_seconds: u64,
    ) -> Result<Reply, KernelFault>
        requires { HasRoom self.old }
        ensures { TakesTurn (replying connection request.now content unix_seconds) self.old result self.new }
    {
        let letter = self.reply_to(connection, request, content)?;
        let letters = self.enclose(&request.header, letter)?;
        self.store.push_all(unix_seconds, letters);
        Ok(Reply::Arrived)
    }

    fn other(
        &mut self,
        connection: u32,
        identity: Bytes,
        request: &Request,
        unix_seconds: u64,
    ) -> Result<Reply, KernelFault>
        requires { HasRoom self.old }
        ensures { TakesTurn (other connection identity request.now request.now.body unix_seconds)
            self.old result self.new }
    {
        match &request.body {
            RequestBody::Execute(execute) => self.execute(
                connection,
                identity,
                request,
                execute,
                unix_seconds,
            ),
            RequestBody::CommOpen { comm_id } => self.close_comm(request, comm_id, unix_seconds),
            RequestBody::Shutdown { restarts } => self.shut_down(
                connection,
                request,
                *restarts,
                unix_seconds,
            ),
            RequestBody::Interrupt => self.interrupt(connection, request, unix_seconds),
            RequestBody::Debug(debug) => self.debug(connection, request, debug, unix_seconds),
            RequestBody::InputReply { typed } => self.type_line(typed),
            RequestBody::BadContent(bad) => self.ignore_request(request, *bad, unix_seconds),
            RequestBody::KernelInfo
            | RequestBody::IsComplete { .. }
            | RequestBody::Complete { .. }
            | RequestBody::Inspect
            | RequestBody::History
            | RequestBody::CommInfo
            | RequestBody::BadDebug(_)
            | RequestBody::Unknown => self.post_busy_idle(request, unix_seconds),
        }
    }

    // A request with a bad content, of a type that gets no error reply.
    fn ignore_request(
        &mut self,
        request: &Request,
        bad: NeedyRequest,
        unix_seconds: u64,
    ) -> Result<Reply, KernelFault>
        requires { HasRoom self.old }
        ensures { TakesTurn (ignore_request request.now bad unix_seconds) self.old result self.new }
    {
        match bad {
            NeedyRequest::InputReply => Ok(Reply::Arrived),
            NeedyRequest::Execute
            | NeedyRequest::IsComplete
            | NeedyRequest::Complete
            | NeedyRequest::CommOpen
            | NeedyRequest::Shutdown => self.post_busy_idle(request, unix_seconds),
        }
    }

    fn execute(
        &mut self,
        connection: u32,
        identity: Bytes,
        request: &Request,
        execute: &ExecuteRequest,
        unix_seconds: u64,
    ) -> Result<Reply, KernelFault>
        requires { HasRoom self.old }
        ensures { TakesTurn (executing connection identity request.now execute.now unix_seconds)
            self.old result self.new }
    {
        let execution = Execution::copy_of(self.alloc, connection, identity, request, execute)?;
        if self.executions.has_place() {
            self.executions.push(execution);
            return Ok(Reply::Arrived);
        }
        let letters = self.queue_full(execution)?;
        self.store.push_all(unix_seconds, letters);
        Ok(Reply::Arrived)
    }

    // Busy, and the end of an execution that finds the queue full.
    fn queue_full(&self, execution: Execution) -> Result<Letters, AllocError>
        ensures { let connections = self.now.connections in IfOk result (λ letters. letters
            ≡ publication connections execution.header (Content.Status ExecutionState.Busy)
            ∷ end_letters connections (record { execution = execution; count = self.now.work.count })
            (Ending.Failed Cause.QueueFull)) }
    {
        let mut letters = Letters::new(self.alloc)?;
        let content = Content::Status(ExecutionState::Busy);
        letters.push(publish(self.alloc, &self.peers, &execution.header, content)?);
        let end = prepare_end(self.alloc, &self.peers, &execution, self.executions.count())?;
        push_end(&mut letters, end, Ending::Failed(Cause::QueueFull));
        Ok(letters)
    }

    fn close_comm(
        &mut self,
        request: &Request,
        comm_id: &Text,
        unix_seconds: u64,
    ) -> Result<Reply, KernelFault>
        requires { HasRoom self.old }
        ensures { TakesTurn (closing request.now comm_id.now unix_seconds) self.old result self.new }
    {
        let comm_id = Text::copy_of(self.alloc, comm_id.as_str())?;
        let content = Content::CommClose { comm_id };
        let letter = publish(self.alloc, &self.peers, &request.header, content)?;
        let letters = self.enclose(&request.header, letter)?;
        self.store.push_all(unix_seconds, letters);
        Ok(Reply::Arrived)
    }

    // Posts busy and idle, and no more.
    fn post_busy_idle(&mut self, request: &Request, unix_seconds: u64) -> Result<Reply, KernelFault>
        requires { HasRoom self.old }
        ensures { TakesTurn (passing request.now unix_seconds) self.old result self.new }
    {
        let BusyIdle { mut letters, idle } = busy_idle(self.alloc, &self.peers, &request.header)?;
        letters.push(idle);
        self.store.push_all(unix_seconds, letters);
        Ok(Reply::Arrived)
    }

    fn type_line(&mut self, typed: &Bytes) -> Result<Reply, KernelFault>
        ensures { TakesTurn (typing typed.now) self.old result self.new }
    {
        type_bytes(&mut self.lab, typed)?;
        Ok(Reply::Arrived)
    }

    // The envelopes for the end of the current execution, if there is a run.
    fn prepare_end_of_run(&self) -> Result<Option<PreparedEnd>, AllocError>
        ensures { (s : KernelStateOf) → RepresentsKernel self.now s → IfOk result (λ end.
            end ≡ option_map (prepared_end s.connections) (cut_of s)) }
    {
        if !self.has_run() {
            return Ok(None);
        }
        match self.executions.current() {
            None => Ok(None),
            Some(current) => {
                let end = prepare_end(self.alloc, &self.peers, &current.execution, current.count)?;
                Ok(Some(end))
            }
        }
    }

    // The letters of a request that ends the run, with the reply of this content.
    pub(super) fn cut_letters(
        &self,
        connection: u32,
        request: &Request,
        cause: Cause,
        content: Content,
    ) -> Result<Letters, AllocError>
        ensures { (s : KernelStateOf) → RepresentsKernel self.now s → IfOk result (λ letters.
            letters ≡ between_busy_and_idle s.connections request.now.header
            (cut_letters cause s ++ reply_to connection request.now content ∷ [])) }
    {
        let reply = self.reply_to(connection, request, content)?;
        match self.prepare_cut(&request.header) {
            Ok((busy_idle, end)) => Ok(cut_letters(busy_idle, end, cause, reply)),
            Err(_) => {
                drop(reply);
                Err(AllocError)
            }
        }
    }

    // Busy and idle, and the envelopes for the end of the run between them.
    fn prepare_cut(&self, header: &Bytes) -> Result<(BusyIdle, Option<PreparedEnd>), AllocError>
        ensures busy_idle { IfOk result (λ made. IsBusyIdle self.now.connections header.now made.0) }
        ensures end { (s : KernelStateOf) → RepresentsKernel self.now s → IfOk result (λ made.
            made.1 ≡ option_map (prepared_end s.connections) (cut_of s)) }
    {
        let end = self.prepare_end_of_run()?;
        match busy_idle(self.alloc, &self.peers, header) {
            Ok(busy_idle) => Ok((busy_idle, end)),
            Err(_) => {
                drop(end);
                Err(AllocError)
            }
        }
    }

    // Ends the current execution if there was a run.
    pub(super) fn end_if(&mut self, had_run: bool)
        ensures { self.new ≡ record self.old {
          work =
              if had_run then clear_current self.old.work else self.old.work;
        } }
    {
        if had_run {
            self.executions.end();
        }
    }

    fn interrupt(
        &mut self,
        connection: u32,
        request: &Request,
        unix_seconds: u64,
    ) -> Result<Reply, KernelFault>
        requires { HasRoom self.old }
        ensures { TakesTurn (interrupting connection request.now unix_seconds) self.old result self.new }
    {
        let letters = self.cut_letters(
            connection,
            request,
            Cause::Interrupted,
            Content::InterruptReply,
        )?;
        let had_run = self.has_run();
        interrupt(&mut self.lab);
        self.end_if(had_run);
        self.store.push_all(unix_seconds, letters);
        Ok(Reply::Arrived)
    }

    // Resets the board, and posts these letters, which report the end of the run.
    pub(super) fn reset_board(
        &mut self,
        letters: Letters,
        unix_seconds: u64,
    ) -> Result<(), AllocError>
        requires { HasRoom self.old }
        ensures ok { (s : KernelStateOf) → RepresentsKernel self.old s
            → OnOk result (RepresentsKernel self.new
            (after (posting Reply.Arrived unix_seconds letters
            (with_board (reset_of s.board) (cut_work s) s)))) }
        ensures grows { Grows self.old self.new }
        ensures err { OnErr result (self.new ≡ self.old) }
    {
        let had_run = self.has_run();
        reset(&mut self.lab)?;
        self.end_if(had_run);
        self.store.push_all(unix_seconds, letters);
        Ok(())
    }

    fn shut_down(
        &mut self,
        connection: u32,
        request: &Request,
        restarts: bool,
        unix_seconds: u64,
    ) -> Result<Reply, KernelFault>
        requires { HasRoom self.old }
        ensures { TakesTurn (shutting connection request.now restarts unix_seconds) self.old result self.new }
    {
        let content = Content::ShutdownReply { restarts };
        if restarts {
            let letters = self.cut_letters(connection, request, Cause::Reset, content)?;
            self.reset_board(letters, unix_seconds)?;
            self.is_shut = true;
            return Ok(Reply::Arrived);
        }
        let letter = self.reply_to(connection, request, content)?;
        let letters = self.enclose(&request.header, letter)?;
        self.store.push_all(unix_seconds, letters);
        self.is_shut = true;
        Ok(Reply::Arrived)
    }
}
