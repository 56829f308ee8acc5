//! The names of refusals, the events that follow commands, and why a run stopped.
ghost use Rattle.std.specs.Prelude.{◌≡◌, IfOk};
ghost use Rattle.dap_board.specs.Names.{refusal_name, event_after, reason_of};

use base_text::text::Text;
use dap_answers::answer::{Event, Outcome, StopReason};
use dap_talk::command::DapCommand;
use lab_core::answer::Stop;
use lab_core::fault::EventFault;
use std::alloc::{AllocError, Global};

/// The message of a response that refuses a command (Debug Adapter Protocol, "Base Protocol").
pub fn refusal_name(refusal: EventFault) -> &'static str
    ensures { result.now ≡ refusal_name refusal }
{
    match refusal {
        EventFault::OutOfMemory => "OutOfMemory",
        EventFault::NotRunning => "NotRunning",
        EventFault::NotStopped => "NotStopped",
        EventFault::Busy => "Busy",
        EventFault::SourceNameTaken => "SourceNameTaken",
        EventFault::NoSource => "NoSource",
        EventFault::Latched => "Latched",
        EventFault::BadFrame => "BadFrame",
        EventFault::BadReference => "BadReference",
        EventFault::Assembly(_) => "Assembly",
        EventFault::NotAttached => "NotAttached",
        EventFault::Vector => "Vector",
        EventFault::SourcesFull => "SourcesFull",
        EventFault::UnknownName => "UnknownName",
        EventFault::BadValue => "BadValue",
    }
}

/// The outcome of a command that the board refuses for this reason.
pub fn outcome_of(alloc: Global, refusal: EventFault) -> Result<Outcome, AllocError>
    ensures { IfOk result (λ outcome. outcome ≡ Outcome.Refused (refusal_name refusal)) }
{
    let message = Text::copy_of(alloc, refusal_name(refusal))?;
    Ok(Outcome::Refused(message))
}

/// The event that follows the response once a command is done (Debug Adapter Protocol, "Events").
pub fn event_after(command: &DapCommand) -> Option<Event>
    ensures { result ≡ event_after command.now }
{
    match command {
        DapCommand::Initialize => Some(Event::Initialized),
        DapCommand::Continue => Some(Event::Continued),
        DapCommand::Step { .. } => Some(Event::Continued),
        DapCommand::Pause => Some(Event::Stopped(StopReason::Pause)),
        _ => None,
    }
}

/// The reason of a `stopped` event for a stop of the board.
pub fn reason_of(stop: Stop) -> StopReason
    ensures { result ≡ reason_of stop }
{
    match stop {
        Stop::Breakpoint => StopReason::Breakpoint,
        Stop::Step => StopReason::Step,
    }
}
