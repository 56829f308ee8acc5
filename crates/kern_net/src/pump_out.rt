//! Writing a connection's posts.
ghost use Rattle.std.specs.Prelude.{◌≡◌, IfOk, IfErr, OnOk, Ok};
ghost use Rattle.base_streams.specs.States.{IsWritable};
ghost use Rattle.kern_calls.specs.declared.call.Call.TheVariants.{Fetch};
ghost use Rattle.kern_calls.specs.declared.call.Reply.TheVariants.{Fetched};
ghost use Rattle.kern_net.specs.Calls.{TurnedBy};
ghost use Rattle.kern_net.specs.Out.{WroteAll, CanWrite, PumpsOut, writer_with};
ghost use Rattle.kern_net.specs.Rounds.{IsFetchAnswer, GivesBatch, FetchFails, WriteFails};
ghost use Rattle.kern_net.specs.Rounds.{WritesBatch, RoundFails};
ghost use Rattle.kern_net.specs.Routes.{target_of};

use crate::end::PumpEnd;
use crate::gate::WriterGate;
use crate::routes::OutgoingRoute;
use crate::runtime::Runtime;
use crate::stream::stream_of;
use base_streams::ports::Outlet;
use base_streams::writing::write_all;
use kern_core::call::{Call, Reply};
use kern_core::fault::KernelFault;
use kern_desk::seated::Pass;
use kern_post::post::{Post, Posts};
use kern_post::store::FETCHED_AT_ONCE;
use std::alloc::Global;
use std::sync::Wait;

/// How many numbers a Fetch covers unless it reaches the last post.
pub const NUMBERS_OF_A_FETCH: u64 = FETCHED_AT_ONCE as u64;

// What a Fetch gave: the posts, the number to go on at, and whether a shutdown has come.
struct Batch {
    posts: Posts,
    next: u64,
    ended: bool,
}

// What the answer to a Fetch gives, or how it ends the pump.
fn batch_of(answer: Result<Reply, KernelFault>) -> Result<Batch, PumpEnd>
    requires { IsFetchAnswer answer }
    ensures { GivesBatch answer result }
{
    match answer {
        Ok(Reply::Fetched { posts, next, ended }) => Ok(Batch { posts, next, ended }),
        Err(fault) => Err(PumpEnd::from(fault)),
        Ok(
            Reply::Joined { .. }
            | Reply::Left
            | Reply::Subscribed
            | Reply::Arrived
            | Reply::More
            | Reply::Idle
            | Reply::Ended,
        ) => unreachable!(),
    }
}

// Fetches the posts from a number on.
fn fetch<R: Wait>(
    rt: &R,
    pass: &mut Pass,
    route: &OutgoingRoute<'_>,
    from: u64,
) -> Result<Batch, PumpEnd>
    requires { pass.old.turnstile ≡ route.now.desk.now }
    ensures same { (pass.new.turnstile ≡ route.now.desk.now) × (pass.new.seat ≡ pass.old.seat) }
    ensures ok { IfOk result (λ batch. TurnedBy pass.old (Fetch route.now.connection from)
        (Ok (Fetched batch.posts batch.next batch.ended)) pass.new) }
    ensures err { IfErr result (FetchFails route.now.connection pass.old pass.new from) }
{
    let connection = route.connection;
    match route.desk.turn(rt, pass, Call::Fetch { connection, from }) {
        Ok(answer) => batch_of(answer),
        Err(_) => Err(PumpEnd::OutOfTickets),
    }
}

// Writes the messages of posts. On an error a prefix of them is written.
fn write_posts<W: Outlet>(
    alloc: Global,
    to: &mut W,
    route: &OutgoingRoute<'_>,
    posts: &[Post],
) -> Result<(), PumpEnd>
    requires { IsWritable (W.state to.old) }
    ensures ok { OnOk result (WroteAll (target_of route.now) (W.state to.old) (W.state to.new) posts.now) }
    ensures good { OnOk result (IsWritable (W.state to.new)) }
    ensures err { IfErr result
        (WriteFails (target_of route.now) (W.state to.old) (W.state to.new) posts.now) }
{
    let Ok(bytes) = stream_of(alloc, posts, route.key, route.session) else {
        return Err(PumpEnd::OutOfMemory);
    };
    match write_all(to, bytes.as_slice()) {
        Ok(()) => Ok(()),
        Err(_) => Err(PumpEnd::WriteFailed),
    }
}

// Where the next Fetch is to begin, and whether a shutdown has come.
#[derive(Clone, Copy)]
struct Cursor {
    next: u64,
    ended: bool,
}

// Fetches the posts from a number on, and writes them.
fn fetch_on<R: Wait, W: Outlet>(
    runtime: &Runtime<'_, R>,
    pass: &mut Pass,
    to: &mut W,
    route: &OutgoingRoute<'_>,
    from: u64,
) -> Result<Cursor, PumpEnd>
    requires pass { pass.old.turnstile ≡ route.now.desk.now }
    requires good { IsWritable (W.state to.old) }
    ensures same { (pass.new.turnstile ≡ route.now.desk.now) × (pass.new.seat ≡ pass.old.seat) }
    ensures ok { IfOk result (WritesBatch (target_of route.now) from
        (record { outlet = W.state to.old; pass = pass.old })
        (record { outlet = W.state to.new; pass = pass.new })) }
    ensures good { OnOk result (IsWritable (W.state to.new)) }
    ensures err { IfErr result (RoundFails (target_of route.now) from
        (record { outlet = W.state to.old; pass = pass.old })
        (record { outlet = W.state to.new; pass = pass.new })) }
{
    match fetch(runtime.rt, pass, route, from) {
        Ok(Batch { posts, next, ended }) => {
            match write_posts(runtime.alloc, to, route, posts.as_slice()) {
                Ok(()) => Ok(Cursor { next, ended }),
                Err(end) => Err(end),
            }
        }
        Err(end) => Err(end),
    }
}

/// Writes the posts to a connection from number `from` on, each once and in order. After each Fetch that
/// reached the last post, it polls the gate's `idle` before the next one.
///
/// Returns when the gate says no, when a shutdown has come and everything is written, when a Fetch is
/// refused, when a write fails, or when memory runs out. It may wait, or never return, as its gate does.
pub fn pump_out<R: Wait, W: Outlet, G: WriterGate>(
    runtime: &Runtime<'_, R>,
    pass: &mut Pass,
    gate: &mut G,
    to: &mut W,
    route: &OutgoingRoute<'_>,
    from: u64,
) -> PumpEnd
    requires { CanWrite route.now.desk.now (writer_with (W.state to.old) pass.old (G.polls gate.old)) }
    ensures { PumpsOut route.now from (writer_with (W.state to.old) pass.old (G.polls gate.old))
        (writer_with (W.state to.new) pass.new (G.polls gate.new)) result }
{
    gate.begin(runtime.rt, from);
    let mut next = from;
    for _ in runtime.rt.forever() {
        match fetch_on(runtime, pass, to, route, next) {
            Err(end) => return end,
            Ok(Cursor { next: after, ended }) => {
                if after.saturating_sub(next) < NUMBERS_OF_A_FETCH {
                    if ended {
                        return PumpEnd::Ended;
                    }
                    if !gate.idle(runtime.rt, pass, to, after) {
                        return PumpEnd::Ended;
                    }
                }
                next = after;
            }
        }
    }
    unreachable!()
}
