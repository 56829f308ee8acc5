//! What an editor is told of a program that is loaded.
ghost use Rattle.std.specs.Prelude.{◌≡◌, ◌++◌, ◌∷◌, [], OnOk, IfOk};
ghost use Rattle.dap_run.specs.Messages.{event_if, change_events, turn_messages, as_messages, response};
ghost use Rattle.dap_run.specs.Messages.{events_of};
ghost use Rattle.dap_launch.specs.Openings.{accepted_outcome, changed_events, first_events, opening_events};
ghost use Rattle.dap_launch.specs.Programs.{begun_follow};

use crate::program::pauses;
use base_text::sequence::Sequence;
use dap_answers::answer::Body;
use dap_messages::message::{
    EditorBody, EditorEvent, EditorOutcome, EditorResponse, EditorStop, Message, PlacedBreakpoint,
};
use dap_requests::request::{Launch, SupportedEvents};
use dap_run::messages::{FollowUp, RequestId};
use std::alloc::{AllocError, Global};

/// Why a program is loaded.
#[derive(Clone, Copy)]
pub enum LoadReason {
    Launch,
    Restart,
}

fn push_message(messages: &mut Sequence<Message>, event: EditorEvent) -> Result<(), AllocError>
    ensures { OnOk result (messages.new ≡ messages.old ++ as_messages (event ∷ [])) }
{
    messages.push(Message::Event(event))
}

// Adds an event for each breakpoint.
fn push_changed(
    messages: &mut Sequence<Message>,
    points: Sequence<PlacedBreakpoint>,
) -> Result<(), AllocError>
    ensures { OnOk result (messages.new ≡ messages.old ++ as_messages (changed_events points)) }
{
    for point in points.into_vec() {
        push_message(messages, EditorEvent::Breakpoint(point))?;
    }
    Ok(())
}

fn push_first(messages: &mut Sequence<Message>, cause: LoadReason) -> Result<(), AllocError>
    ensures { OnOk result (messages.new ≡ messages.old ++ as_messages (first_events cause)) }
{
    match cause {
        LoadReason::Launch => push_message(messages, EditorEvent::Initialized),
        LoadReason::Restart => Ok(()),
    }
}

fn push_if(
    messages: &mut Sequence<Message>,
    is_told: bool,
    event: EditorEvent,
) -> Result<(), AllocError>
    ensures { OnOk result (messages.new ≡ messages.old ++ as_messages (event_if is_told event)) }
{
    if is_told {
        return push_message(messages, event);
    }
    Ok(())
}

#[tactic(auto, using(dap_run::proofs::SliceLemmas::told_both))]
fn push_changes(
    messages: &mut Sequence<Message>,
    supported: SupportedEvents,
) -> Result<(), AllocError>
    ensures { OnOk result (messages.new ≡ messages.old ++ as_messages (change_events supported)) }
{
    push_if(messages, supported.invalidated, EditorEvent::Invalidated)?;
    push_if(messages, supported.memory, EditorEvent::Memory)
}

// Adds what follows: that the run is stopped or goes on, or that the program has ended.
fn push_follow(messages: &mut Sequence<Message>, follow: FollowUp) -> Result<(), AllocError>
    ensures { OnOk result (messages.new ≡ messages.old ++ as_messages (events_of follow)) }
{
    match follow {
        FollowUp::Nothing => Ok(()),
        FollowUp::Continued => push_message(messages, EditorEvent::Continued),
        FollowUp::Stopped(reason) => push_message(messages, EditorEvent::Stopped(reason)),
        FollowUp::Changed(supported) => push_changes(messages, supported),
        FollowUp::Ended(code) => {
            push_message(messages, EditorEvent::Exited { code })?;
            push_message(messages, EditorEvent::Terminated)
        }
    }
}

// The response to a launch or a restart.
fn accepted(caller: RequestId) -> Message
    ensures { result ≡ response caller (EditorOutcome.Success (EditorBody.Board Body.Empty)) }
{
    let RequestId { seq, command } = caller;
    Message::Response(EditorResponse {
        request_seq: seq,
        command,
        outcome: EditorOutcome::Success(EditorBody::Board(Body::Empty)),
    })
}

/// The messages about a launch or a restart: the response, `initialized` after a launch, which asks for the
/// configuration, then the breakpoints that aren't what they were, and what follows.
pub fn opening_messages(
    alloc: Global,
    caller: RequestId,
    cause: LoadReason,
    changed: Sequence<PlacedBreakpoint>,
    follow: FollowUp,
) -> Result<Sequence<Message>, AllocError>
    ensures { IfOk result (λ messages. messages
        ≡ turn_messages caller accepted_outcome
        (opening_events cause changed follow)) }
{
    let mut messages = Sequence::new(alloc);
    messages.push(accepted(caller))?;
    push_first(&mut messages, cause)?;
    push_changed(&mut messages, changed)?;
    push_follow(&mut messages, follow)?;
    Ok(messages)
}

/// A launch or a restart, and the request that its response answers.
#[derive(Drop)]
pub struct Opening {
    pub caller: RequestId,
    pub cause: LoadReason,
}

/// What the editor is told of the run of a program that begins.
pub fn begun_follow(cause: LoadReason, launch: &Launch) -> FollowUp
    ensures { result ≡ begun_follow cause launch.now }
{
    if pauses(launch) {
        return FollowUp::Stopped(EditorStop::Entry);
    }
    match cause {
        LoadReason::Launch => FollowUp::Nothing,
        LoadReason::Restart => FollowUp::Continued,
    }
}
