//! The calls that a message asks for.
ghost use Rattle.std.specs.Prelude.{◌≡◌, ◌≤◌, ◌⊎◌, ◌++◌, ◌∷◌, [], true, false, OnOk, OnErr, Ok};
ghost use Rattle.std.specs.Prelude.{Err, IfOk, IfErr};
ghost use mathlib.Core.List.{IsPrefix};
ghost use Rattle.std.specs.Prelude.{IfSome, IfNone};
ghost use Rattle.serde_json.specs.View.{view};
ghost use Rattle.jup_wire.specs.declared.channel.Channel.TheVariants.{Iopub};
ghost use Rattle.jup_wire.specs.Wire.{IsMessage};
ghost use Rattle.kern_request.specs.Requests.{request_of as request_in};
ghost use Rattle.kern_calls.specs.declared.call.Call.TheVariants.{Arrive, Subscribe};
ghost use Rattle.kern_calls.specs.declared.call.Reply.{Reply};
ghost use Rattle.kern_net.specs.Calls.{TurnedBy};
ghost use Rattle.kern_net.specs.Gates.{after_wake, WokeForEach, WokeOwnForEach, HasWoken, IsToWake};
ghost use Rattle.kern_net.specs.Gates.{IsDue};
ghost use Rattle.kern_net.specs.Submitting.{subscription_frames, IsUnopened, IsNoSubscription};
ghost use Rattle.kern_net.specs.ReadEnds.{IsReaderCall, IsRefusal, StopsBy};
ghost use Rattle.kern_net.specs.Reading.{SubmittedFor};
ghost use Rattle.kern_net.specs.Routes.{source_of};

use crate::end::PumpEnd;
use crate::gate::ReaderGate;
use crate::routes::IncomingRoute;
use crate::runtime::Runtime;
use crate::wakes::concerns_worker;
use base_text::boxed::Boxed;
use base_text::sequence::{Bytes, Frames};
use jup_wire::channel::Channel;
use jup_wire::message::{Message, WireFault};
use jup_wire::opening::open_message;
use kern_core::call::{Arrival, Call, Reply, Subscription};
use kern_core::fault::KernelFault;
use kern_desk::seated::{Desk, Pass};
use kern_request::reading::request_of;
use std::alloc::{AllocError, Global};
use std::sync::Wait;

// An error if the call was refused.
fn refusal(answer: Result<Reply, KernelFault>) -> Result<(), KernelFault>
    ensures ok { OnOk result ((reply : Reply) × (answer ≡ Ok reply)) }
    ensures err { IfErr result (λ fault. answer ≡ Err fault) }
{
    match answer {
        Ok(_) => Ok(()),
        Err(fault) => Err(fault),
    }
}

// Wakes everybody if the worker may have something to do, else those whom the call may have posted to.
fn ring<R: Wait, G: ReaderGate>(rt: &R, gate: &mut G, pass: &Pass, has_work: bool)
    requires { IsToWake has_work (G.polls gate.old) pass.now }
    ensures { G.polls gate.new ≡ after_wake has_work (G.polls gate.old) }
{
    if has_work {
        gate.wake(rt, pass);
    } else {
        gate.wake_own_writers(rt, pass);
    }
}

// Makes a call, and wakes others if it stands in the journal.
#[tactic(auto, using(crate::proofs::ReadTurnLemmas::outcomes))]
fn make_call<R: Wait, G: ReaderGate>(
    rt: &R,
    desk: &Desk,
    pass: &mut Pass,
    gate: &mut G,
    call: Call,
) -> Result<(), PumpEnd>
    requires own { pass.old.turnstile ≡ desk.now }
    requires read { IsReaderCall call }
    requires due { IsDue call (G.polls gate.old) }
    ensures same { (pass.new.turnstile ≡ desk.now) × (pass.new.seat ≡ pass.old.seat) }
    ensures woken { OnOk result (HasWoken (G.polls gate.new)) }
    ensures woke { WokeForEach pass.old pass.new (G.polls gate.old) (G.polls gate.new) }
    ensures told { WokeOwnForEach pass.old pass.new (G.polls gate.old) (G.polls gate.new) }
    ensures ok { OnOk result ((reply : Reply) × TurnedBy pass.old call (Ok reply) pass.new) }
    ensures err { IfErr result (λ e. StopsBy e pass.old.calls pass.new) }
    ensures onward { OnErr result (IsPrefix pass.old.seen pass.new.seen) }
    ensures counted { IfErr result (λ e. (pass.new.calls ≡ pass.old.calls)
        ⊎ (IsRefusal e × (pass.new.calls ≡ pass.old.calls ++ call ∷ []))) }
{
    let has_work = concerns_worker(&call);
    let Ok(answer) = desk.turn(rt, pass, call) else {
        return Err(PumpEnd::OutOfTickets);
    };
    match refusal(answer) {
        Ok(()) => {
            ring(rt, gate, pass, has_work);
            Ok(())
        }
        Err(KernelFault::OutOfMemory) => Err(PumpEnd::OutOfMemory),
        Err(KernelFault::JournalFull) => Err(PumpEnd::JournalFull),
        Err(KernelFault::Full) => {
            ring(rt, gate, pass, has_work);
            Err(PumpEnd::Refused(KernelFault::Full))
        }
        Err(KernelFault::NoConnection) => {
            ring(rt, gate, pass, has_work);
            Err(PumpEnd::Refused(KernelFault::NoConnection))
        }
        Err(KernelFault::Lagged { .. }) => Err(PumpEnd::Lagged),
    }
}

/// A subscription, or the end of one.
struct Wish<'a> {
    wants: bool,
    prefix: &'a [u8],
}

// What the frames ask for, if they are those of a subscription or of the end of one.
fn wish_in(frames: &Frames) -> Option<Wish<'_>>
    ensures some { IfSome result (λ w. frames.now ≡ subscription_frames w.wants w.prefix.now) }
    ensures none { IfNone result (IsNoSubscription frames.now) }
{
    let [frame] = frames.as_slice() else {
        return None;
    };
    let Some((mark, prefix)) = frame.as_slice().split_first() else {
        return None;
    };
    match *mark {
        1 => Some(Wish {
            wants: true,
            prefix,
        }),
        0 => Some(Wish {
            wants: false,
            prefix,
        }),
        _ => None,
    }
}

fn subscribe_call(
    alloc: Global,
    connection: u32,
    wants: bool,
    prefix: &[u8],
    unix_seconds: u64,
) -> Result<Call, AllocError>
    ensures { IfOk result (λ call. call
        ≡ Subscribe connection (record { wants = wants; prefix = prefix.now; unix_seconds = unix_seconds })) }
{
    let prefix = Bytes::copy_of(alloc, prefix)?;
    let subscription = Boxed::new(
        alloc,
        Subscription {
            wants,
            prefix,
            unix_seconds,
        },
    )?;
    Ok(Call::Subscribe {
        connection,
        subscription,
    })
}

fn arrive_call(
    alloc: Global,
    route: &IncomingRoute<'_>,
    message: Message,
    unix_seconds: u64,
) -> Result<Call, AllocError>
    ensures { IfOk result (λ call. call ≡ Arrive route.now.connection
        (record { request = request_in route.now.channel message; unix_seconds = unix_seconds })) }
{
    let request = request_of(alloc, route.channel, message)?;
    let arrival = Boxed::new(
        alloc,
        Arrival {
            request,
            unix_seconds,
        },
    )?;
    Ok(Call::Arrive {
        connection: route.connection,
        arrival,
    })
}

// The message in these frames, if they are one and it opens.
#[tactic(auto, using(crate::proofs::SubmitLemmas::refused_message))]
fn message_in(alloc: Global, frames: Frames, key: &[u8]) -> Result<Option<Message>, AllocError>
    ensures some { IfOk result (λ found.
        IfSome found (λ m. IsMessage key.now frames m.parts m.header (view m.content))) }
    ensures none { IfOk result (λ found. IfNone found (IsUnopened key.now frames)) }
{
    match open_message(alloc, frames, key) {
        Ok(message) => Ok(Some(message)),
        Err(fault) => {
            if fault == WireFault::OutOfMemory {
                return Err(AllocError);
            }
            Ok(None)
        }
    }
}

#[tactic(auto, using(crate::proofs::SubmitLemmas::dropped_subscription, crate::proofs::RingLemmas::moments))]
fn subscribe<R: Wait, G: ReaderGate>(
    runtime: &Runtime<'_, R>,
    pass: &mut Pass,
    gate: &mut G,
    route: &IncomingRoute<'_>,
    frames: &Frames,
) -> Result<(), PumpEnd>
    requires own { pass.old.turnstile ≡ route.now.desk.now }
    requires woken { HasWoken (G.polls gate.old) }
    requires iopub { route.now.channel ≡ Iopub }
    ensures same { (pass.new.turnstile ≡ route.now.desk.now) × (pass.new.seat ≡ pass.old.seat) }
    ensures woken { OnOk result (HasWoken (G.polls gate.new)) }
    ensures woke { WokeForEach pass.old pass.new (G.polls gate.old) (G.polls gate.new) }
    ensures told { WokeOwnForEach pass.old pass.new (G.polls gate.old) (G.polls gate.new) }
    ensures submitted { SubmittedFor (source_of route.now) (frames.now ∷ []) pass.old pass.new result }
{
    let Some(Wish { wants, prefix }) = wish_in(frames) else {
        return Ok(());
    };
    let unix_seconds = gate.unix_seconds(runtime.rt);
    match subscribe_call(runtime.alloc, route.connection, wants, prefix, unix_seconds) {
        Ok(call) => match make_call(runtime.rt, route.desk, pass, gate, call) {
            Ok(()) => Ok(()),
            Err(end) => Err(end),
        },
        Err(_) => Err(PumpEnd::OutOfMemory),
    }
}

#[tactic(auto, using(crate::proofs::SubmitLemmas::arrivals, crate::proofs::RingLemmas::moments))]
fn arrive<R: Wait, G: ReaderGate>(
    runtime: &Runtime<'_, R>,
    pass: &mut Pass,
    gate: &mut G,
    route: &IncomingRoute<'_>,
    frames: Frames,
) -> Result<(), PumpEnd>
    requires own { pass.old.turnstile ≡ route.now.desk.now }
    requires woken { HasWoken (G.polls gate.old) }
    requires other { route.now.channel ≡ Iopub → ⊥ }
    ensures same { (pass.new.turnstile ≡ route.now.desk.now) × (pass.new.seat ≡ pass.old.seat) }
    ensures woken { OnOk result (HasWoken (G.polls gate.new)) }
    ensures woke { WokeForEach pass.old pass.new (G.polls gate.old) (G.polls gate.new) }
    ensures told { WokeOwnForEach pass.old pass.new (G.polls gate.old) (G.polls gate.new) }
    ensures submitted { SubmittedFor (source_of route.now) (frames ∷ []) pass.old pass.new result }
{
    match message_in(runtime.alloc, frames, route.key) {
        Ok(Some(message)) => {
            let unix_seconds = gate.unix_seconds(runtime.rt);
            match arrive_call(runtime.alloc, route, message, unix_seconds) {
                Ok(call) => match make_call(runtime.rt, route.desk, pass, gate, call) {
                    Ok(()) => Ok(()),
                    Err(end) => Err(end),
                },
                Err(_) => Err(PumpEnd::OutOfMemory),
            }
        }
        Ok(None) => Ok(()),
        Err(_) => Err(PumpEnd::OutOfMemory),
    }
}

/// Makes the call that a message asks for, if it asks for one.
pub(crate) fn submit<R: Wait, G: ReaderGate>(
    runtime: &Runtime<'_, R>,
    pass: &mut Pass,
    gate: &mut G,
    route: &IncomingRoute<'_>,
    frames: Frames,
) -> Result<(), PumpEnd>
    requires own { pass.old.turnstile ≡ route.now.desk.now }
    requires woken { HasWoken (G.polls gate.old) }
    ensures same { (pass.new.turnstile ≡ route.now.desk.now) × (pass.new.seat ≡ pass.old.seat) }
    ensures woken { OnOk result (HasWoken (G.polls gate.new)) }
    ensures woke { WokeForEach pass.old pass.new (G.polls gate.old) (G.polls gate.new) }
    ensures told { WokeOwnForEach pass.old pass.new (G.polls gate.old) (G.polls gate.new) }
    ensures submitted { SubmittedFor (source_of route.now) (frames ∷ []) pass.old pass.new result }
{
    if route.channel == Channel::Iopub {
        return subscribe(runtime, pass, gate, route, &frames);
    }
    arrive(runtime, pass, gate, route, frames)
}
