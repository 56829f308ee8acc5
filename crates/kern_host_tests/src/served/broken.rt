//! Connections that break off.

use crate::checks::expect_at;
use crate::served::gates::Plan;
use crate::served::guests::{AT_ONCE, Script, end_of, guests_of, serve, was_sent, written};
use crate::served::signals::Signals;
use jup_wire::channel::Channel;
use kern_core::call::Call;
use kern_desk::seated::Seated;
use kern_host::end::{Ends, VisitEnd};
use kern_net::end::PumpEnd;
use kern_net_kit::bytes::{DEALER, GREETING, HEARS, RUNS, SUB};
use kern_net_kit::replay::{Posts, Replay};
use kern_net_kit::script::{Ask, is_handshake};
use std::alloc::Global;
use std::process::Abort;
use std::rt::Clock;
use std::sync::Wait;
use std::thread::Threads;
use zmtp_wire::peer_fault::PeerFault;

// A gate says no after a few polls.
const PLAN: Plan = Plan {
    polls: 2,
    over: u32::MAX,
    holds: false,
};

// The most entries that are looked at.
const MOST: usize = 1000;

// One that asks for two things, and one that subscribes.
const ASKS: Script = Script {
    channel: Channel::Shell,
    hello: DEALER,
    bytes: RUNS,
    after: AT_ONCE,
    asks: &[
        Ask("m-1", "kernel_info_request", "{}"),
        Ask(
            "m-2",
            "execute_request",
            "{\"code\":\"MVI A,7\\nHLT\\nEND\"}",
        ),
    ],
};

const HEARS_ALL: Script = Script {
    channel: Channel::Iopub,
    hello: SUB,
    bytes: HEARS,
    after: AT_ONCE,
    asks: &[],
};

// The script of a guest that breaks off after this many bytes.
fn front_of<R: Abort>(rt: &R, script: Script, count: usize) -> Script {
    let hello = count.min(script.hello.len());
    Script {
        hello: script.hello.get(..hello).expect(rt, "a front"),
        bytes: script.bytes.get(..count - hello).expect(rt, "a front"),
        ..script
    }
}

// How the visit ends then.
fn end_behind(script: Script, count: usize) -> VisitEnd {
    if count < script.hello.len() {
        return VisitEnd::NoHandshake(PeerFault::PeerEnded);
    }
    VisitEnd::Served(Ends {
        reading: PumpEnd::PeerEnded,
        writing: Some(PumpEnd::Ended),
        leave: Ok(()),
    })
}

// How many Joins, requests or subscriptions, and Leaves its reader's seat has made then. `ends` are the
// numbers of bytes after the handshake at which a message ends.
fn calls_behind(script: Script, ends: [usize; 2], count: usize) -> [u32; 3] {
    let hello = script.hello.len();
    if count < hello {
        return [0, 0, 0];
    }
    let mut asked = 0u32;
    for end in ends {
        if count - hello >= end {
            asked = asked.saturating_add(1);
        }
    }
    [1, asked, 1]
}

fn add(calls: &mut [u32; 3], call: &Call) {
    let kind: usize = match call {
        Call::Join { .. } => 0,
        Call::Arrive { .. } | Call::Subscribe { .. } => 1,
        Call::Leave { .. } => 2,
        Call::Fetch { .. } | Call::Slice { .. } => return,
    };
    calls[kind] = calls[kind].saturating_add(1);
}

// How many of them are in a journal.
fn calls_of(seated: &Seated, seat: u32) -> [u32; 3] {
    let mut calls = [0u32; 3];
    for place in 0..MOST {
        let Some((by, call)) = seated.entry(place) else {
            return calls;
        };
        if by == seat {
            add(&mut calls, call);
        }
    }
    calls
}

// What the kernel writes while there is no handshake: its greeting, and READY once the peer's greeting has
// come.
fn is_front_of_handshake(bytes: &[u8], channel: Channel, count: usize) -> bool {
    if count < GREETING.len() {
        return bytes == GREETING;
    }
    is_handshake(bytes, channel)
}

// A guest that breaks off: its whole script, the numbers of bytes after the handshake at which a message
// ends, and after how many bytes it does.
#[derive(Clone, Copy)]
struct Break {
    whole: Script,
    ends: [usize; 2],
    count: usize,
}

fn check_bytes<R: Abort>(rt: &R, alloc: Global, seated: &Seated, broken: Break, bytes: &[u8]) {
    let Break { whole, count, .. } = broken;
    let is_sent = if count < whole.hello.len() {
        is_front_of_handshake(bytes, whole.channel, count)
    } else {
        let replay = Replay {
            seated,
            scripts: &[front_of(rt, whole, count)],
            guest: 0,
            posts: Posts::Fetched,
        };
        was_sent(rt, alloc, &replay, bytes)
    };
    expect_at(rt, is_sent, "other bytes were sent behind", count as u64);
}

fn check_calls<R: Abort>(rt: &R, seated: &Seated, broken: Break) {
    let Break { whole, ends, count } = broken;
    let has_called = calls_of(seated, 0) == calls_behind(whole, ends, count);
    expect_at(rt, has_called, "other calls were made behind", count as u64);
}

fn visit_front<R: Threads + Wait + Clock + Abort + Sync>(rt: &R, alloc: Global, broken: Break) {
    let signals = Signals::new();
    let scripts = [front_of(rt, broken.whole, broken.count)];
    let mut guests = guests_of(rt, alloc, &signals, &scripts, PLAN);
    let served = serve(rt, alloc, guests.as_mut_slice(), &signals, PLAN);
    let served = served.expect(rt, "memory to begin");
    check_calls(rt, &served.hosted.seated, broken);
    check_bytes(
        rt,
        alloc,
        &served.hosted.seated,
        broken,
        written(guests.as_slice(), 0),
    );
    drop(served);
    let end = end_of(guests.as_slice(), 0);
    drop(guests);
    drop(signals);
    let has_ended = end == Some(end_behind(broken.whole, broken.count));
    expect_at(
        rt,
        has_ended,
        "it ended otherwise behind",
        broken.count as u64,
    );
}

fn visit_fronts<R: Threads + Wait + Clock + Abort + Sync>(
    rt: &R,
    alloc: Global,
    whole: Script,
    ends: [usize; 2],
) {
    for count in 0..whole
        .hello
        .len()
        .saturating_add(whole.bytes.len())
        .saturating_add(1)
    {
        visit_front(rt, alloc, Break { whole, ends, count });
    }
}

#[test]
fn a_guest_breaks_off_at_each_byte(rt: HostRuntime) {
    visit_fronts(&rt, rt.alloc(), ASKS, [99, RUNS.len()]);
    visit_fronts(&rt, rt.alloc(), HEARS_ALL, [HEARS.len(), usize::MAX]);
}
