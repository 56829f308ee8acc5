//! The messages to an editor about one request or slice.
ghost use Rattle.std.specs.Prelude.{◌≡◌, ◌≤◌, ◌+◌, ◌++◌, ◌∷◌, [], length, IfOk};
ghost use Rattle.dap_run.specs.Messages.{as_messages, response, turn_messages, end_events, events_of};
ghost use Rattle.dap_run.specs.Messages.{event_if, change_events};

use base_text::sequence::Sequence;
use base_text::text::Text;
use dap_messages::message::{EditorEvent, EditorOutcome, EditorResponse, EditorStop, Message};
use dap_requests::request::SupportedEvents;
use std::alloc::{AllocError, Global};
use std::marker::Model;

/// The most messages of one request or slice.
pub const MOST_MESSAGES: usize = 8;

/// The request that is answered: its number and its command.
#[derive(Drop)]
pub struct RequestId {
    pub seq: u32,
    pub command: Text,
}

/// What follows the response to a request.
#[derive(Clone, Copy)]
pub enum FollowUp {
    Nothing,
    /// That the run goes on.
    Continued,
    /// That it is stopped.
    Stopped(EditorStop),
    /// That something was changed by hand, to an editor that understands these events.
    Changed(SupportedEvents),
    /// That the program has ended, with this exit code.
    Ended(u8),
}

/// At most eight messages, with room for all, seen as the list of them.
pub struct Messages {
    messages: Vec<Message>,
}

// Written out so that every place that drops messages calls one function.
impl Drop for Messages {
    fn drop(self) {
        let Self { messages: _ } = self;
    }
}

impl Model for Messages {
    ghost use Rattle.std.specs.Prelude.{◌≤◌, length, vec_capacity, List};
    ghost use Rattle.dap_messages.specs.declared.message.Message.{Message};

    ghost Value = { List Message };

    ghost view = { λ m. m.messages.items };

    ghost invariant = { λ m. (length m.messages.items ≤ 8) × (8 ≤ vec_capacity m.messages) };
}

impl Messages {
    /// No messages, with room for eight.
    pub fn new(alloc: Global) -> Result<Messages, AllocError>
        ensures { IfOk result (λ messages. messages ≡ []) }
    {
        let messages = Vec::with_capacity(alloc, MOST_MESSAGES)?;
        Ok(Messages { messages })
    }

    /// Adds the response to a request, without allocating.
    pub fn push_response(&mut self, caller: RequestId, outcome: EditorOutcome)
        requires { length self.old + 1 ≤ 8 }
        ensures { self.new ≡ self.old ++ response caller outcome ∷ [] }
    {
        let RequestId { seq, command } = caller;
        self.messages.push_reserved(Message::Response(EditorResponse {
            request_seq: seq,
            command,
            outcome,
        }));
    }

    /// Adds an event, without allocating.
    pub fn push_event(&mut self, event: EditorEvent)
        requires { length self.old + 1 ≤ 8 }
        ensures { self.new ≡ self.old ++ as_messages (event ∷ []) }
    {
        self.messages.push_reserved(Message::Event(event));
    }

    fn push_if(&mut self, is_told: bool, event: EditorEvent)
        requires { length self.old + 1 ≤ 8 }
        ensures told { self.new ≡ self.old ++ as_messages (event_if is_told event) }
        ensures few { length self.new ≤ length self.old + 1 }
    {
        if is_told {
            self.push_event(event);
        }
    }

    /// Adds what is told of a change by hand, without allocating.
    #[tactic(auto, using(crate::proofs::SliceLemmas::told_both))]
    pub fn push_changes(&mut self, supported: SupportedEvents)
        requires { length self.old + 2 ≤ 8 }
        ensures { self.new ≡ self.old ++ as_messages (change_events supported) }
    {
        self.push_if(supported.invalidated, EditorEvent::Invalidated);
        self.push_if(supported.memory, EditorEvent::Memory);
    }

    /// Adds the events that say that the program has ended, without allocating.
    pub fn push_end(&mut self, code: u8)
        requires { length self.old + 2 ≤ 8 }
        ensures { self.new ≡ self.old ++ as_messages (end_events code) }
    {
        self.push_event(EditorEvent::Exited { code });
        self.push_event(EditorEvent::Terminated);
    }

    /// Adds what follows a response, without allocating.
    pub fn push_follow(&mut self, follow: FollowUp)
        requires { length self.old + 2 ≤ 8 }
        ensures { self.new ≡ self.old ++ as_messages (events_of follow) }
    {
        match follow {
            FollowUp::Nothing => {}
            FollowUp::Continued => self.push_event(EditorEvent::Continued),
            FollowUp::Stopped(reason) => self.push_event(EditorEvent::Stopped(reason)),
            FollowUp::Changed(supported) => self.push_changes(supported),
            FollowUp::Ended(code) => self.push_end(code),
        }
    }

    /// The response to a request and what follows it, without allocating.
    pub fn turn(
        mut self,
        caller: RequestId,
        outcome: EditorOutcome,
        follow: FollowUp,
    ) -> Sequence<Message>
        requires { self ≡ [] }
        ensures { result ≡ turn_messages caller outcome (events_of follow) }
    {
        self.push_response(caller, outcome);
        self.push_follow(follow);
        self.into_sequence()
    }

    /// The messages, without allocating.
    pub fn into_sequence(self) -> Sequence<Message>
        ensures { result ≡ self }
    {
        let Messages { messages } = self;
        Sequence::from(messages)
    }
}
