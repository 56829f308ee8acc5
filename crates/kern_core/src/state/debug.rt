//! Debug requests.
ghost use Rattle.std.specs.Prelude.{◌≡◌, ◌<◌, ◌≤◌, ◌+◌, ◌++◌, ◌∷◌, length, true, false, option_to_list, None};
ghost use Rattle.std.specs.Prelude.{Err, IfOk, IsOk, IsErr, IsTrue, codes};
ghost use Rattle.dap_board.specs.Commands.{IsPerformable};
ghost use Rattle.dap_board.specs.Names.{event_after};
ghost use Rattle.kern_core.specs.Requests.{is_reset, after_letter, is_bounded, refusing, performing};
ghost use Rattle.kern_core.specs.Requests.{debugging, debug_reply, performed_letters};
ghost use Rattle.kern_core.specs.Debugging.{IsPreparedDebugReply, AnswersWith};
ghost use Rattle.kern_core.specs.States.{KernelState as KernelStateOf};
ghost use Rattle.kern_core.specs.Represents.{RepresentsKernel, TakesTurn, HasRoom};

use crate::state::KernelState;
use base_text::text::Text;
use dap_answers::answer::{Body, Outcome, Response};
use dap_board::names::{event_after, outcome_of};
use dap_board::perform::perform;
use dap_talk::command::{DapCommand, DapRequest};
use kern_calls::call::Reply;
use kern_calls::fault::KernelFault;
use kern_exec::letters::{BusyIdle, address, busy_idle, publish};
use kern_post::content::{Cause, Content};
use kern_post::letters::Letters;
use kern_post::post::{Envelope, Letter};
use kern_request::request::Request;
use lab_core::fault::EventFault;
use std::alloc::{AllocError, Global};

/// How many lines a setBreakpoints request can have, at most.
const MOST_LINES: usize = 256;

/// All of a debug reply but its outcome, allocated before the board is asked.
#[derive(Drop)]
pub struct PreparedDebugReply {
    pub busy_idle: BusyIdle,
    pub envelope: Envelope,
    pub request_seq: u32,
    pub command: Text,
}

fn is_reset(command: &DapCommand) -> bool
    ensures { result ≡ is_reset command.now }
{
    matches!(command, DapCommand::BoardReset)
}

fn is_bounded(command: &DapCommand) -> bool
    ensures bounded { result ≡ is_bounded command.now }
    ensures fits { IsTrue result → IsPerformable command.now }
{
    match command {
        DapCommand::SetBreakpoints { lines, .. } => lines.len() <= MOST_LINES,
        DapCommand::Disassemble {
            instruction_count,
            ..
        } => 1 <= *instruction_count && *instruction_count <= 256,
        _ => true,
    }
}

fn push_some(letters: &mut Letters, letter: Option<Letter>)
    requires { length letters.old < 8 }
    ensures letters { letters.new ≡ letters.old ++ option_to_list letter }
    ensures bound { length letters.new ≤ length letters.old + 1 }
{
    match letter {
        None => {}
        Some(letter) => letters.push(letter),
    }
}

// The reply with this outcome, and the letter after it if there is one, between busy and idle.
fn debug_letters(prepared: PreparedDebugReply, outcome: Outcome, after: Option<Letter>) -> Letters
    requires { length prepared.busy_idle.letters ≤ 1 }
    ensures { AnswersWith prepared (λ n r d. debug_reply n r d outcome ∷ option_to_list after) result }
{
    let PreparedDebugReply {
        busy_idle,
        envelope,
        request_seq,
        command,
    } = prepared;
    let BusyIdle { mut letters, idle } = busy_idle;
    letters.push(Letter {
        envelope,
        content: Content::DebugReply(Response {
            request_seq,
            command,
            outcome,
        }),
    });
    push_some(&mut letters, after);
    letters.push(idle);
    letters
}

// The reply that refuses a command, between busy and idle. Out of memory is an error and gets no reply.
fn refusal_letters(
    alloc: Global,
    prepared: PreparedDebugReply,
    fault: EventFault,
) -> Result<Letters, AllocError>
    requires bound { length prepared.busy_idle.letters ≤ 1 }
    ensures letters { IfOk result (AnswersWith prepared (performed_letters (Err fault) None)) }
    ensures memory { fault ≡ EventFault.OutOfMemory → IsErr result }
{
    if matches!(fault, EventFault::OutOfMemory) {
        drop(prepared);
        return Err(AllocError);
    }
    match outcome_of(alloc, fault) {
        Ok(outcome) => Ok(debug_letters(prepared, outcome, None)),
        Err(_) => {
            drop(prepared);
            Err(AllocError)
        }
    }
}

// The letters that report the result of a command. For a command that was performed they need no memory.
fn letters_by(
    alloc: Global,
    prepared: PreparedDebugReply,
    performed: Result<Body, EventFault>,
    after: Option<Letter>,
) -> Result<Letters, AllocError>
    requires bound { length prepared.busy_idle.letters ≤ 1 }
    ensures letters { IfOk result (AnswersWith prepared (performed_letters performed after)) }
    ensures done { IsOk performed → IsOk result }
    ensures memory { performed ≡ Err EventFault.OutOfMemory → IsErr result }
{
    match performed {
        Ok(body) => Ok(debug_letters(prepared, Outcome::Success(body), after)),
        Err(fault) => {
            drop(after);
            refusal_letters(alloc, prepared, fault)
        }
    }
}

impl KernelState {
    pub(super) fn debug(
        &mut self,
        connection: u32,
        request: &Request,
        debug: &DapRequest,
        unix_seconds: u64,
    ) -> Result<Reply, KernelFault>
        requires { HasRoom self.old }
        ensures { TakesTurn (debugging connection request.now debug.now unix_seconds)
            self.old result self.new }
    {
        if !is_bounded(&debug.command) {
            return self.refuse(connection, request, debug, unix_seconds);
        }
        if is_reset(&debug.command) {
            return self.reset_by(connection, request, debug, unix_seconds);
        }
        self.perform(connection, request, debug, unix_seconds)
    }

    fn prepare_debug_reply(
        &self,
        connection: u32,
        request: &Request,
        debug: &DapRequest,
    ) -> Result<PreparedDebugReply, AllocError>
        ensures { IfOk result (IsPreparedDebugReply self.now.connections connection request.now debug.now) }
    {
        let command = Text::copy_of(self.alloc, debug.command.name().as_str())?;
        let envelope = address(self.alloc, connection, &request.identities, &request.header)?;
        let busy_idle = busy_idle(self.alloc, &self.peers, &request.header)?;
        Ok(PreparedDebugReply {
            busy_idle,
            envelope,
            request_seq: debug.seq,
            command,
        })
    }

    fn after_letter(
        &self,
        request: &Request,
        command: &DapCommand,
    ) -> Result<Option<Letter>, AllocError>
        ensures { (s : KernelStateOf) → RepresentsKernel self.now s → IfOk result (λ letter.
            letter ≡ after_letter (event_after command.now) request.now s) }
    {
        match event_after(command) {
            None => Ok(None),
            Some(event) => {
                let content = Content::DebugEvent(event);
                let letter = publish(self.alloc, &self.peers, &request.header, content)?;
                Ok(Some(letter))
            }
        }
    }

    fn prepare(
        &self,
        connection: u32,
        request: &Request,
        debug: &DapRequest,
    ) -> Result<(PreparedDebugReply, Option<Letter>), AllocError>
        ensures prepared { IfOk result (λ made.
            IsPreparedDebugReply self.now.connections connection request.now debug.now made.0) }
        ensures after { (s : KernelStateOf) → RepresentsKernel self.now s → IfOk result (λ made.
            made.1 ≡ after_letter (event_after debug.now.command) request.now s) }
    {
        let after = self.after_letter(request, &debug.command)?;
        match self.prepare_debug_reply(connection, request, debug) {
            Ok(prepared) => Ok((prepared, after)),
            Err(_) => {
                drop(after);
                Err(AllocError)
            }
        }
    }

    fn refuse(
        &mut self,
        connection: u32,
        request: &Request,
        debug: &DapRequest,
        unix_seconds: u64,
    ) -> Result<Reply, KernelFault>
        requires { HasRoom self.old }
        ensures { TakesTurn (refusing connection request.now debug.now (codes "Arguments") unix_seconds)
            self.old result self.new }
    {
        let message = Text::copy_of(self.alloc, "Arguments")?;
        let prepared = self.prepare_debug_reply(connection, request, debug)?;
        let letters = debug_letters(prepared, Outcome::Refused(message), None);
        self.store.push_all(unix_seconds, letters);
        Ok(Reply::Arrived)
    }

    // Performs a board/reset request.
    fn reset_by(
        &mut self,
        connection: u32,
        request: &Request,
        debug: &DapRequest,
        unix_seconds: u64,
    ) -> Result<Reply, KernelFault>
        requires room { HasRoom self.old }
        requires reset { is_reset debug.now.command ≡ true }
        ensures { TakesTurn (performing connection request.now debug.now unix_seconds)
            self.old result self.new }
    {
        let command = Text::copy_of(self.alloc, debug.command.name().as_str())?;
        let content = Content::DebugReply(Response {
            request_seq: debug.seq,
            command,
            outcome: Outcome::Success(Body::Empty),
        });
        let letters = self.cut_letters(connection, request, Cause::Reset, content)?;
        self.reset_board(letters, unix_seconds)?;
        Ok(Reply::Arrived)
    }

    fn perform(
        &mut self,
        connection: u32,
        request: &Request,
        debug: &DapRequest,
        unix_seconds: u64,
    ) -> Result<Reply, KernelFault>
        requires room { HasRoom self.old }
        requires bounded { IsPerformable debug.now.command }
        requires other { is_reset debug.now.command ≡ false }
        ensures { TakesTurn (performing connection request.now debug.now unix_seconds)
            self.old result self.new }
    {
        let (prepared, after) = self.prepare(connection, request, debug)?;
        let result = perform(self.alloc, &mut self.lab, &debug.command);
        let letters = letters_by(self.alloc, prepared, result, after)?;
        self.store.push_all(unix_seconds, letters);
        Ok(Reply::Arrived)
    }
}
