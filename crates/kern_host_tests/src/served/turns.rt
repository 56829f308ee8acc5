//! That threads take turns: while the worker runs a cell, the calls of readers come in between two slices.
//! The worker is held before the first slice of a program that never ends until the requests are done that
//! four connections of shell send only then, and after them a pause on control. A worker that kept the
//! others out for a whole cell would be held until its gate gives up, and the test would fail.

use crate::checks::expect_at;
use crate::served::gates::Plan;
use crate::served::guests::{
    AT_ONCE, MemoryGuest, Script, Served, end_of, guests_of, is_served, serve, was_sent, written,
};
use crate::served::signals::{Counts, Signals};
use jup_wire::channel::Channel;
use kern_desk::seated::Seated;
use kern_net::end::PumpEnd;
use kern_net_kit::bytes::{
    ASKS_A, ASKS_B, ASKS_C, ASKS_D, ATTACHES, DEALER, HEARS, LOOPS, PAUSED, PAUSES, REFUSED,
    SESSION, SUB, after, count_of,
};
use kern_net_kit::replay::{Posts, Replay};
use kern_net_kit::script::Ask;
use std::alloc::Global;
use std::process::Abort;
use std::rt::Clock;
use std::sync::Wait;
use std::thread::Threads;

// What comes after the subscription, the attachment, the program's begin, and the four connections' requests.
// A subscription is told the kernel's state, which is idle, so it counts as a request that is done.
const SUBSCRIBED: Counts = Counts {
    heard: 1,
    done: 0,
    held: 0,
};

const ATTACHED: Counts = Counts {
    heard: 0,
    done: 2,
    held: 0,
};

const BEGUN: Counts = Counts {
    heard: 0,
    done: 0,
    held: 1,
};

const ANSWERED: Counts = Counts {
    heard: 0,
    done: 14,
    held: 1,
};

// The first of the four connections.
const FOUR: usize = 3;

// One of them, but for its requests.
const ASKING: Script = Script {
    channel: Channel::Shell,
    hello: DEALER,
    bytes: b"",
    after: BEGUN,
    asks: &[],
};

const INFO: &str = "kernel_info_request";

const COMMS: &str = "comm_info_request";

const SCRIPTS: &[Script] = &[
    Script {
        channel: Channel::Iopub,
        hello: SUB,
        bytes: HEARS,
        after: AT_ONCE,
        asks: &[],
    },
    Script {
        channel: Channel::Control,
        hello: DEALER,
        bytes: ATTACHES,
        after: SUBSCRIBED,
        asks: &[Ask(
            "m-1",
            "debug_request",
            "{\"type\":\"request\",\"seq\":1,\"command\":\"attach\"}",
        )],
    },
    Script {
        channel: Channel::Shell,
        hello: DEALER,
        bytes: LOOPS,
        after: ATTACHED,
        asks: &[Ask("m-1", "execute_request", "{\"code\":\"X: JMP X\\nEND X\"}")],
    },
    Script {
        bytes: ASKS_A,
        asks: &[
            Ask("a-1", INFO, "{}"),
            Ask("a-2", COMMS, "{}"),
            Ask("a-3", INFO, "{}"),
        ],
        ..ASKING
    },
    Script {
        bytes: ASKS_B,
        asks: &[
            Ask("b-1", INFO, "{}"),
            Ask("b-2", COMMS, "{}"),
            Ask("b-3", INFO, "{}"),
        ],
        ..ASKING
    },
    Script {
        bytes: ASKS_C,
        asks: &[
            Ask("c-1", INFO, "{}"),
            Ask("c-2", COMMS, "{}"),
            Ask("c-3", INFO, "{}"),
        ],
        ..ASKING
    },
    Script {
        bytes: ASKS_D,
        asks: &[
            Ask("d-1", INFO, "{}"),
            Ask("d-2", COMMS, "{}"),
            Ask("d-3", INFO, "{}"),
        ],
        ..ASKING
    },
    Script {
        channel: Channel::Control,
        hello: DEALER,
        bytes: PAUSES,
        after: ANSWERED,
        asks: &[Ask(
            "m-2",
            "debug_request",
            "{\"type\":\"request\",\"seq\":2,\"command\":\"pause\"}",
        )],
    },
];

// All is over once the subscription, the attachment, twelve requests and the pause are done.
const PLAN: Plan = Plan {
    polls: 20_000,
    over: 15,
    holds: true,
};

// The headers of each connection's requests, as the answers repeat them.
const HEADERS: &[[&[u8]; 3]] = &[
    [
        b"{\"msg_id\":\"a-1\"",
        b"{\"msg_id\":\"a-2\"",
        b"{\"msg_id\":\"a-3\"",
    ],
    [
        b"{\"msg_id\":\"b-1\"",
        b"{\"msg_id\":\"b-2\"",
        b"{\"msg_id\":\"b-3\"",
    ],
    [
        b"{\"msg_id\":\"c-1\"",
        b"{\"msg_id\":\"c-2\"",
        b"{\"msg_id\":\"c-3\"",
    ],
    [
        b"{\"msg_id\":\"d-1\"",
        b"{\"msg_id\":\"d-2\"",
        b"{\"msg_id\":\"d-3\"",
    ],
];

// Whether answers to three requests were written in their order, and no others.
fn are_answered(bytes: &[u8], headers: &[&[u8]]) -> bool {
    let mut rest = bytes;
    for header in headers {
        let Some(behind) = after(rest, header) else {
            return false;
        };
        rest = behind;
    }
    count_of(bytes, SESSION) == 3
}

fn check_guest<R: Abort>(rt: &R, alloc: Global, seated: &Seated, guest: usize, bytes: &[u8]) {
    let replay = Replay {
        seated,
        scripts: SCRIPTS,
        guest,
        posts: Posts::All,
    };
    let is_sent = was_sent(rt, alloc, &replay, bytes);
    expect_at(rt, is_sent, "other bytes were sent to guest", guest as u64);
    let is_refused = count_of(bytes, REFUSED) > 0;
    expect_at(
        rt,
        !is_refused,
        "a request was refused of guest",
        guest as u64,
    );
}

fn check_guests<R: Abort + Clock>(
    rt: &R,
    alloc: Global,
    seated: &Seated,
    guests: &[MemoryGuest<'_, R>],
) {
    for place in 0..SCRIPTS.len() {
        let has_ended = is_served(end_of(guests, place));
        expect_at(rt, has_ended, "another end of guest", place as u64);
        check_guest(rt, alloc, seated, place, written(guests, place));
    }
}

fn check_answers<R: Abort + Clock>(rt: &R, guests: &[MemoryGuest<'_, R>]) {
    for (place, headers) in HEADERS.iter().enumerate() {
        let is_answered = are_answered(written(guests, FOUR + place), headers);
        expect_at(
            rt,
            is_answered,
            "other answers were given to client",
            place as u64,
        );
    }
    let pauses = count_of(written(guests, 7), PAUSED);
    expect_at(
        rt,
        pauses == 1,
        "of the answers to the pause there aren't one, but",
        u64::from(pauses),
    );
}

fn check_served<R: Abort + Clock>(
    rt: &R,
    alloc: Global,
    served: &Served,
    guests: &[MemoryGuest<'_, R>],
) {
    check_guests(rt, alloc, &served.hosted.seated, guests);
    check_answers(rt, guests);
    // The paused program leaves the worker nothing to do.
    let has_worked = served.hosted.end == PumpEnd::Ended && served.answers == [3, 0, 1];
    assert!(rt; has_worked, "the worker ended otherwise");
}

fn serve_guests<R: Threads + Wait + Clock + Abort + Sync>(
    rt: &R,
    alloc: Global,
    signals: &Signals,
) {
    let mut guests = guests_of(rt, alloc, signals, SCRIPTS, PLAN);
    let served = serve(rt, alloc, guests.as_mut_slice(), signals, PLAN);
    let served = served.expect(rt, "memory to begin");
    check_served(rt, alloc, &served, guests.as_slice());
    drop(served);
    drop(guests);
}

#[test]
fn calls_come_between_slices(rt: HostRuntime) {
    let signals = Signals::new();
    serve_guests(&rt, rt.alloc(), &signals);
    let was_in_time = signals.held.count() == 1 && signals.late.count() == 0;
    drop(signals);
    assert!(&rt; was_in_time, "a thread waited in vain");
}
