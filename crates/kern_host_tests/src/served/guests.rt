//! Guests over memory, and what they were sent.
ghost use Rattle.std.specs.Prelude.{◌≡◌, ◌≤◌, All, length};
ghost use Rattle.kern_net.specs.Gates.{no_polls};
ghost use Rattle.kern_host.specs.Guests.{IsComing};

use crate::checks::expect_at;
use crate::served::gates::{Heard, InGate, OutGate, Plan, Work, WorkGate, Writing};
use crate::served::signals::{Counts, Signals};
use crate::served::streams::{HeldInlet, ToldOutlet};
use base_streams::memory::{Sink, Source};
use jup_wire::channel::Channel;
use kern_core::kernel::Kernel;
use kern_desk::desks::MOST_ENTRIES;
use kern_desk::seated::Seated;
use kern_host::end::{Ends, VisitEnd};
use kern_host::guest::Guest;
use kern_host::host::{Hosted, host};
use kern_host::server::Seal;
use kern_net::end::PumpEnd;
use kern_net_kit::gates;
use kern_net_kit::replay::{Replay, ReplayFault, sent_to};
use kern_net_kit::script::{Ask, Scripted};
use std::alloc::Global;
use std::process::Abort;
use std::rt::Clock;
use std::sync::Wait;
use std::thread::Threads;

/// A guest: its channel, what it writes for its handshake and then, when that comes, and the requests in it.
#[derive(Clone, Copy)]
pub struct Script {
    pub channel: Channel,
    pub hello: &'static [u8],
    pub bytes: &'static [u8],
    pub after: Counts,
    pub asks: &'static [Ask],
}

impl Scripted for Script {
    fn channel(&self) -> Channel {
        self.channel
    }

    fn asks(&self) -> &'static [Ask] {
        self.asks
    }
}

/// What comes at once.
pub const AT_ONCE: Counts = Counts {
    heard: 0,
    done: 0,
    held: 0,
};

// `host` serves no more.
const MOST_GUESTS: usize = 511;

/// A connection over memory.
pub type MemoryGuest<'a, C> = Guest<
    HeldInlet<'a, Source, C>,
    ToldOutlet<'a, Sink>,
    InGate<'a>,
    OutGate<'a, C>,
>;

// What a guest writes.
fn written_by<R: Abort>(rt: &R, alloc: Global, script: Script) -> Vec<u8> {
    let mut bytes = script.hello.to_vec(alloc).expect(rt, "memory for bytes");
    bytes
        .extend_from_slice(script.bytes)
        .expect(rt, "memory for bytes");
    bytes
}

/// A guest that does what a script says.
pub fn guest_of<'a, R: Abort + Clock>(
    rt: &'a R,
    alloc: Global,
    signals: &'a Signals,
    script: Script,
    plan: Plan,
) -> MemoryGuest<'a, R>
    ensures { IsComing result }
{
    let written = written_by(rt, alloc, script);
    Guest::new(
        script.channel,
        HeldInlet {
            from: Source::new(written, 4096, 9999),
            signals,
            after: script.after,
            clock: rt,
        },
        ToldOutlet {
            to: Sink::new(alloc, 1 << 20, 99_999),
            signals,
        },
        gates::InGate::new(Heard { signals }),
        gates::OutGate::new(Writing {
            plan,
            signals,
            clock: rt,
            is_over: false,
        }),
    )
}

/// A guest for each script.
pub fn guests_of<'a, R: Abort + Clock>(
    rt: &'a R,
    alloc: Global,
    signals: &'a Signals,
    scripts: &[Script],
    plan: Plan,
) -> Vec<MemoryGuest<'a, R>>
    ensures { All IsComing result.items }
{
    let mut guests = Vec::new(alloc);
    for script in scripts {
        guests
            .push(guest_of(rt, alloc, signals, *script, plan))
            .expect(rt, "memory for a guest");
    }
    guests
}

/// A kernel that served guests, how many slices the worker's gate let through since it was idle, and how
/// often its `before` and `idle` said no.
#[derive(Drop)]
pub struct Served {
    pub hosted: Hosted,
    pub answers: [u64; 3],
}

fn host_all<R: Threads + Wait + Clock + Abort + Sync>(
    rt: &R,
    alloc: Global,
    guests: &mut [MemoryGuest<'_, R>],
    gate: &mut WorkGate<'_, R>,
) -> Option<Hosted>
    requires guests { All IsComing guests.old }
    requires few { length guests.old ≤ 511 }
    requires gate { gate.old.polls ≡ no_polls }
{
    let kernel = Kernel::new(alloc, MOST_ENTRIES).expect(rt, "a kernel");
    let seal = Seal {
        key: b"",
        session: "S",
    };
    match host(rt, alloc, kernel, &seal, gate, guests) {
        Ok(hosted) => Some(hosted),
        Err(kernel) => {
            drop(kernel);
            None
        }
    }
}

/// Serves guests with a new kernel; None if there is no memory to begin.
pub fn serve<R: Threads + Wait + Clock + Abort + Sync>(
    rt: &R,
    alloc: Global,
    guests: &mut [MemoryGuest<'_, R>],
    signals: &Signals,
    plan: Plan,
) -> Option<Served>
    requires { All IsComing guests.old }
{
    if guests.len() > MOST_GUESTS {
        return None;
    }
    let mut gate = gates::WorkGate::new(Work {
        plan,
        signals,
        clock: rt,
        busy: 0,
    });
    let hosted = host_all(rt, alloc, guests, &mut gate)?;
    let answers = [
        gate.plan.busy,
        gate.polls.before().no(),
        gate.polls.idle().no(),
    ];
    Some(Served { hosted, answers })
}

/// Whether a visit ended as it does if all goes well.
pub fn is_served(end: Option<VisitEnd>) -> bool {
    end == Some(VisitEnd::Served(Ends {
        reading: PumpEnd::PeerEnded,
        writing: Some(PumpEnd::Ended),
        leave: Ok(()),
    }))
}

/// Whether a guest was sent the kernel's handshake, and then what a replay gives for it.
pub fn was_sent<R: Abort>(
    rt: &R,
    alloc: Global,
    replay: &Replay<'_, Script>,
    bytes: &[u8],
) -> bool {
    match sent_to(alloc, replay) {
        Ok(sent) => {
            let is_so = bytes == sent.as_slice();
            drop(sent);
            is_so
        }
        Err(ReplayFault::OtherCall(place)) => {
            expect_at(rt, false, "another call at entry", place as u64);
            false
        }
        Err(_) => false,
    }
}

/// How a guest's visit ended, if it has.
pub fn end_of<R: Clock>(guests: &[MemoryGuest<'_, R>], place: usize) -> Option<VisitEnd> {
    match guests.get(place) {
        Some(guest) => guest.end(),
        None => None,
    }
}

/// What a guest was written.
pub fn written<'b, R: Clock>(guests: &'b [MemoryGuest<'_, R>], place: usize) -> &'b [u8] {
    match guests.get(place) {
        Some(guest) => guest.outlet().to.as_slice(),
        None => b"",
    }
}
