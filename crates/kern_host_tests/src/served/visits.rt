//! Guests of different channels. One subscribes to everything, two send requests once it has, one isn't a
//! ZMTP peer, and the last shuts the kernel down once the requests of the others are done.

use crate::checks::expect_at;
use crate::served::gates::Plan;
use crate::served::guests::{
    AT_ONCE, MemoryGuest, Script, end_of, guests_of, is_served, serve, was_sent, written,
};
use crate::served::signals::{Counts, Signals};
use jup_wire::channel::Channel;
use kern_desk::seated::Seated;
use kern_host::end::VisitEnd;
use kern_net::end::PumpEnd;
use kern_net_kit::bytes::{
    ASKS, DEALER, GREETING, HEARS, IDLE, RUNS, SHUTS, STRANGE, SUB, count_of,
};
use kern_net_kit::replay::{Posts, Replay};
use kern_net_kit::script::Ask;
use std::alloc::Global;
use std::process::Abort;
use std::rt::Clock;
use std::sync::Wait;
use std::thread::Threads;

const HEARD: Counts = Counts {
    heard: 1,
    done: 0,
    held: 0,
};

const SCRIPTS: &[Script] = &[
    Script {
        channel: Channel::Iopub,
        hello: SUB,
        bytes: HEARS,
        after: AT_ONCE,
        asks: &[],
    },
    Script {
        channel: Channel::Shell,
        hello: DEALER,
        bytes: RUNS,
        after: HEARD,
        asks: &[
            Ask("m-1", "kernel_info_request", "{}"),
            Ask(
                "m-2",
                "execute_request",
                "{\"code\":\"MVI A,7\\nHLT\\nEND\"}",
            ),
        ],
    },
    Script {
        channel: Channel::Shell,
        hello: DEALER,
        bytes: ASKS,
        after: HEARD,
        asks: &[Ask("m-1", "comm_info_request", "{}")],
    },
    Script {
        channel: Channel::Shell,
        hello: STRANGE,
        bytes: b"",
        after: AT_ONCE,
        asks: &[],
    },
    Script {
        channel: Channel::Control,
        hello: DEALER,
        bytes: SHUTS,
        after: Counts {
            heard: 1,
            done: 4,
            held: 0,
        },
        asks: &[Ask("m-1", "shutdown_request", "{\"restart\":false}")],
    },
];

// The place of the one that isn't a peer.
const STRANGER: usize = 3;

// The shutdown ends all. The gates only say no if the test has failed.
const PLAN: Plan = Plan {
    polls: 20_000,
    over: u32::MAX,
    holds: false,
};

// A guest was sent what the journal's calls give if they are made again. The one that isn't a peer was sent a
// greeting.
fn check_guest<R: Abort>(rt: &R, alloc: Global, seated: &Seated, guest: usize, bytes: &[u8]) {
    let replay = Replay {
        seated,
        scripts: SCRIPTS,
        guest,
        posts: Posts::All,
    };
    let is_sent = match guest {
        STRANGER => bytes == GREETING,
        _ => was_sent(rt, alloc, &replay, bytes),
    };
    expect_at(rt, is_sent, "other bytes were sent to guest", guest as u64);
}

fn is_right_end(guest: usize, end: Option<VisitEnd>) -> bool {
    match guest {
        STRANGER => matches!(end, Some(VisitEnd::NoHandshake(_))),
        _ => is_served(end),
    }
}

fn check_guests<R: Abort + Clock>(
    rt: &R,
    alloc: Global,
    seated: &Seated,
    guests: &[MemoryGuest<'_, R>],
) {
    for place in 0..SCRIPTS.len() {
        let has_ended = is_right_end(place, end_of(guests, place));
        expect_at(rt, has_ended, "another end of guest", place as u64);
        check_guest(rt, alloc, seated, place, written(guests, place));
    }
    let count = count_of(written(guests, 0), IDLE);
    expect_at(
        rt,
        count == 5,
        "of requests that are done iopub heard not of 5, but of",
        u64::from(count),
    );
}

fn serve_guests<R: Threads + Wait + Clock + Abort + Sync>(
    rt: &R,
    alloc: Global,
    signals: &Signals,
) {
    let mut guests = guests_of(rt, alloc, signals, SCRIPTS, PLAN);
    let served = serve(rt, alloc, guests.as_mut_slice(), signals, PLAN);
    let served = served.expect(rt, "memory to begin");
    check_guests(rt, alloc, &served.hosted.seated, guests.as_slice());
    let has_ended = served.hosted.end == PumpEnd::Ended;
    assert!(rt; has_ended, "the worker ended otherwise");
    drop(served);
    drop(guests);
}

#[test]
fn five_guests_are_served(rt: HostRuntime) {
    let signals = Signals::new();
    serve_guests(&rt, rt.alloc(), &signals);
    drop(signals);
}
