//! A connection whose hooks keep its posts back.
ghost use Rattle.std.specs.Prelude.{Some};
ghost use Rattle.kern_host.specs.Guests.{AreOf, IsComing};

use crate::served::gates::{InGate, OutGate, Plan};
use crate::served::guests::{AT_ONCE, MemoryGuest, Script, guest_of};
use crate::served::signals::Signals;
use jup_wire::channel::Channel;
use kern_desk::desks::{MOST_ENTRIES, open_desk};
use kern_desk::seated::Desk;
use kern_host::end::{Ends, VisitEnd};
use kern_host::guest::Passes;
use kern_host::hooks::Hooks;
use kern_host::server::{Seal, Server};
use kern_host::visiting::visit;
use kern_net::end::PumpEnd;
use kern_net_kit::bytes::{DEALER, RUNS};
use kern_net_kit::script::is_handshake;
use std::alloc::Global;
use std::process::Abort;
use std::rt::Clock;
use std::sync::Wait;
use std::sync::atomic::{AtomicU32, Ordering};
use std::thread::Threads;

// Hooks that let nothing be written. A digit of the sum for each says how often it was called.
#[derive(Drop)]
struct KeepBack {
    calls: AtomicU32,
}

impl KeepBack {
    fn count(&self, digit: u32) {
        self.calls.fetch_add(digit, Ordering::SeqCst);
    }
}

impl<'a, C: Clock> Hooks<InGate<'a>, OutGate<'a, C>> for KeepBack {
    fn before_join<R: Wait>(&self, _rt: &R) {
        self.count(1);
    }

    fn before_reading<R: Wait>(&self, _rt: &R, _gate: &mut InGate<'a>) {
        self.count(10);
    }

    fn before_writing<R: Wait>(&self, rt: &R, gate: &mut OutGate<'a, C>, _from: u64) -> bool {
        self.count(100);
        gate.count_no(rt);
        false
    }

    fn after_reading<R: Wait>(&self, _rt: &R, _gate: &InGate<'a>, _end: PumpEnd) {
        self.count(1_000);
    }

    fn after_writing<R: Wait>(&self, _rt: &R, _gate: &OutGate<'a, C>) {
        self.count(10_000);
    }

    fn before_leave<R: Wait>(&self, _rt: &R) {
        self.count(100_000);
    }
}

// A new desk, and the passes of a connection.
fn open<R: Abort>(rt: &R, alloc: Global) -> (Desk, Passes)
    ensures { AreOf result.0 (Some result.1) }
{
    let (desk, mut passes) = open_desk(alloc, MOST_ENTRIES, 2).expect(rt, "memory for a desk");
    let reading = passes.pop().expect(rt, "a pass");
    let writing = passes.pop().expect(rt, "another pass");
    (desk, Passes { reading, writing })
}

// Visits a guest at a new desk.
fn visit_once<R: Threads + Wait + Clock + Abort + Sync>(
    rt: &R,
    alloc: Global,
    hooks: &KeepBack,
    guest: &mut MemoryGuest<'_, R>,
)
    requires { IsComing guest.old }
{
    let (desk, passes) = open(rt, alloc);
    let server = Server {
        desk: &desk,
        seal: Seal {
            key: b"",
            session: "S",
        },
    };
    guest.sit(passes);
    visit(rt, alloc, &server, hooks, guest);
    drop(desk);
}

fn check_guest<R: Clock + Abort>(rt: &R, guest: &MemoryGuest<'_, R>) {
    let has_ended = guest.end()
        == Some(VisitEnd::Served(Ends {
            reading: PumpEnd::PeerEnded,
            writing: None,
            leave: Ok(()),
        }));
    assert!(rt; has_ended, "it ended otherwise");
    let is_silent = is_handshake(guest.outlet().to.as_slice(), Channel::Shell);
    assert!(rt; is_silent, "something was written");
}

const SCRIPT: Script = Script {
    channel: Channel::Shell,
    hello: DEALER,
    bytes: RUNS,
    after: AT_ONCE,
    asks: &[],
};

const PLAN: Plan = Plan {
    polls: 2,
    over: u32::MAX,
    holds: false,
};

fn visit_guest<R: Threads + Wait + Clock + Abort + Sync>(
    rt: &R,
    alloc: Global,
    signals: &Signals,
    hooks: &KeepBack,
) {
    let mut guest = guest_of(rt, alloc, signals, SCRIPT, PLAN);
    visit_once(rt, alloc, hooks, &mut guest);
    check_guest(rt, &guest);
    drop(guest);
}

#[test]
fn hooks_keep_posts_back(rt: HostRuntime) {
    let signals = Signals::new();
    let hooks = KeepBack {
        calls: AtomicU32::new(0),
    };
    visit_guest(&rt, rt.alloc(), &signals, &hooks);
    drop(signals);
    let calls = hooks.calls.load(Ordering::SeqCst);
    drop(hooks);
    assert_eq!(rt; calls, 111_111);
}
