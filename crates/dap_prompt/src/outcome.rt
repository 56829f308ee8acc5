//! What a request led to.
ghost use Rattle.std.specs.Prelude.{◌≡◌, [], None};
ghost use Rattle.dap_run.specs.Messages.{events_of, turn_messages};
ghost use Rattle.dap_prompt.specs.Effects as effects;

use base_text::sequence::Sequence;
use dap_history::input::Input;
use dap_messages::message::{EditorOutcome, Message};
use dap_run::messages::{FollowUp, Messages, RequestId};
use dap_run::reply::Reply;

/// What a request did, beside its answer.
#[derive(Drop)]
pub enum Effect {
    /// Nothing: it was refused.
    Refused,
    /// It loaded a program.
    Loaded,
    /// It came to the run as this input.
    Changed(Input),
    /// It was carried out, and is none of these.
    Answered,
}

/// What the editor is told of a request, and what the request did.
#[derive(Drop)]
pub struct RequestOutcome {
    /// The response, and the events behind it.
    pub messages: Sequence<Message>,
    pub effect: Effect,
}

/// A reply, and the input that the request is if it is carried out.
#[derive(Drop)]
pub struct InputReply {
    pub reply: Reply,
    pub input: Option<Input>,
}

fn effect_by(input: Option<Input>) -> Effect
    ensures { result ≡ effects.effect_by input }
{
    match input {
        Some(input) => Effect::Changed(input),
        None => Effect::Answered,
    }
}

fn effect_with(outcome: &EditorOutcome, input: Option<Input>) -> Effect
    ensures { result ≡ effects.effect_with outcome.now input }
{
    match outcome {
        EditorOutcome::Success(_) => effect_by(input),
        EditorOutcome::Refused(_) => {
            drop(input);
            Effect::Refused
        }
    }
}

/// What is told of a reply, and what its request did.
pub fn outcome_of(messages: Messages, caller: RequestId, made: InputReply) -> RequestOutcome
    requires { messages ≡ [] }
    ensures messages { result.messages
        ≡ turn_messages caller made.reply.outcome (events_of made.reply.follow) }
    ensures effect { result.effect ≡ effects.effect_with made.reply.outcome made.input }
{
    let InputReply { reply, input } = made;
    let Reply { outcome, follow } = reply;
    let effect = effect_with(&outcome, input);
    RequestOutcome {
        messages: messages.turn(caller, outcome, follow),
        effect,
    }
}

/// A reply to a request that is no input.
pub fn without_input(reply: Reply) -> InputReply
    ensures { result ≡ record { reply = reply; input = None } }
{
    InputReply { reply, input: None }
}

/// The reply to a request that shows something, or says why it can't.
pub fn shown(outcome: EditorOutcome) -> InputReply
    ensures { result ≡ record {
      reply = record { outcome = outcome; follow = FollowUp.Nothing };
      input = None;
    } }
{
    without_input(Reply {
        outcome,
        follow: FollowUp::Nothing,
    })
}
