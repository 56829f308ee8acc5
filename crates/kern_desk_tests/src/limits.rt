//! The limits of a kernel: how many posts are kept, and how many entries a journal has.
use crate::checks::expect_at;
use crate::journals::new_kernel;
use crate::outcomes::Outcome;
use crate::seats::run_rows;
use crate::turns::{Row, TimedAction, Turn, act};
use jup_wire::channel::Channel;
use kern_core::fault::KernelFault;
use kern_core::kernel::Kernel;
use kern_desk::desks::MOST_ENTRIES;
use kern_test_kit::actions::{Action, Question};
use std::alloc::Global;
use std::process::Abort;

// Makes the call of a turn on a kernel, and expects its outcome.
fn expect_turn<R: Abort>(rt: &R, alloc: Global, kernel: &mut Kernel, turn: Turn) {
    let outcome = act(rt, alloc, kernel, turn.call);
    expect_at(
        rt,
        outcome == turn.outcome,
        "the call at",
        turn.call.unix_seconds,
    );
}

// Makes a new kernel post 9,096 times: a Join on shell as connection 1, and 3,032 requests of three posts
// each. The reply is the second of the three, and the only one that goes to the connection.
fn request_often<R: Abort>(rt: &R, alloc: Global, kernel: &mut Kernel) {
    let join = Turn::new(Action::Join(Channel::Shell), 0, Outcome::Joined(1, 1));
    expect_turn(rt, alloc, kernel, join);
    for unix_seconds in 1..3033 {
        let action = Action::Ask(1, Question::KernelInfo);
        let turn = Turn::new(action, unix_seconds, Outcome::Arrived);
        expect_turn(rt, alloc, kernel, turn);
    }
}

const LAGGED: Outcome = Outcome::Refused(KernelFault::Lagged { first: 5001 });

// From which post to fetch, and the outcome: of 9,096 posts the last 4,096 are kept, from 5,001 on.
const KEPT: &[(u64, Outcome)] = &[
    (0, LAGGED),
    (1, LAGGED),
    (4999, LAGGED),
    (5000, LAGGED),
    (
        5001,
        Outcome::Fetched(21, [5003, 5006, 5009, 5012, 5015, 5018], 0, 5065, false),
    ),
    (
        9033,
        Outcome::Fetched(21, [9035, 9038, 9041, 9044, 9047, 9050], 0, 9097, false),
    ),
    (
        9095,
        Outcome::Fetched(1, [9095, 0, 0, 0, 0, 0], 0, 9097, false),
    ),
    (
        9096,
        Outcome::Fetched(0, [0, 0, 0, 0, 0, 0], 0, 9097, false),
    ),
    (
        9097,
        Outcome::Fetched(0, [0, 0, 0, 0, 0, 0], 0, 9097, false),
    ),
    (
        9999,
        Outcome::Fetched(0, [0, 0, 0, 0, 0, 0], 0, 9999, false),
    ),
];

fn expect_kept<R: Abort>(rt: &R, alloc: Global, kernel: &mut Kernel) {
    for (from, wanted) in KEPT {
        expect_turn(
            rt,
            alloc,
            kernel,
            Turn::new(Action::Fetch(1, *from), *from, *wanted),
        );
    }
}

fn next_of(outcome: Outcome) -> Option<(usize, u64)> {
    match outcome {
        Outcome::Fetched(count, _, _, next, _) => Some((count, next)),
        _ => None,
    }
}

// 64 fetches of 64 numbers each return all kept posts, of which 1,365 are replies.
fn expect_all<R: Abort>(rt: &R, alloc: Global, kernel: &mut Kernel) {
    let mut from = 5001;
    let mut replies = 0usize;
    for _ in 0..64 {
        let call = TimedAction {
            action: Action::Fetch(1, from),
            unix_seconds: 0,
        };
        let outcome = act(rt, alloc, kernel, call);
        let (count, next) = next_of(outcome).expect(rt, "a fetch");
        replies = replies.saturating_add(count);
        from = next;
    }
    expect_at(rt, from == 9097, "the last fetch ends at", from);
    expect_at(rt, replies == 1365, "replies", replies as u64);
}

#[test]
fn kept_posts(rt: HostRuntime) {
    let mut kernel = new_kernel(&rt, rt.alloc());
    request_often(&rt, rt.alloc(), &mut kernel);
    expect_kept(&rt, rt.alloc(), &mut kernel);
    expect_all(&rt, rt.alloc(), &mut kernel);
    drop(kernel);
}

const FULL: Outcome = Outcome::Refused(KernelFault::JournalFull);

// Expects a journal to take slices up to its limit.
fn expect_slices<R: Abort>(rt: &R, alloc: Global, kernel: &mut Kernel, limit: u32) {
    for unix_seconds in 0..limit {
        let unix_seconds = u64::from(unix_seconds);
        expect_at(rt, !kernel.full(), "full at", unix_seconds);
        let turn = Turn::new(Action::Slice, unix_seconds, Outcome::Idle);
        expect_turn(rt, alloc, kernel, turn);
    }
}

// Expects it to be full then, and to take no more slices.
fn expect_full<R: Abort>(rt: &R, alloc: Global, kernel: &mut Kernel, limit: u32) {
    expect_at(rt, kernel.full(), "not full at", u64::from(limit));
    for unix_seconds in 0..3 {
        expect_turn(
            rt,
            alloc,
            kernel,
            Turn::new(Action::Slice, unix_seconds, FULL),
        );
    }
    let ends_there = kernel.entry(limit as usize).is_none();
    expect_at(rt, ends_there, "an entry past", u64::from(limit));
}

fn run_slices<R: Abort>(rt: &R, alloc: Global, limit: u32) {
    assert!(rt; 1 <= limit && limit <= MOST_ENTRIES);
    let mut kernel = Kernel::new(alloc, limit).expect(rt, "memory for a kernel");
    expect_slices(rt, alloc, &mut kernel, limit);
    expect_full(rt, alloc, &mut kernel, limit);
    drop(kernel);
}

#[test]
fn journals_of_slices(rt: HostRuntime) {
    for limit in &[1, 2, 3, 64, 1000] {
        run_slices(&rt, rt.alloc(), *limit);
    }
}

// A journal with a limit of six entries, at a desk. Calls that the kernel refuses are entries too. Past the
// limit every seat is told that the journal is full, and these calls are no entries.
const FULL_JOURNAL: &[Row] = &[
    (0, Action::Join(Channel::Shell), Outcome::Joined(1, 1)),
    (1, Action::Leave(9), NO_CONNECTION),
    (
        2,
        Action::Fetch(1, 0),
        Outcome::Refused(KernelFault::Lagged { first: 1 }),
    ),
    (0, Action::Subscribe(1), NO_CONNECTION),
    (1, Action::Ask(1, Question::KernelInfo), Outcome::Arrived),
    (
        2,
        Action::Fetch(1, 1),
        Outcome::Fetched(1, [2, 0, 0, 0, 0, 0], 0, 4, false),
    ),
    (0, Action::Join(Channel::Iopub), FULL),
    (1, Action::Leave(9), FULL),
    (2, Action::Subscribe(1), FULL),
    (0, Action::Ask(1, Question::Shutdown), FULL),
    (1, Action::Slice, FULL),
    (2, Action::Fetch(1, 1), FULL),
];

const NO_CONNECTION: Outcome = Outcome::Refused(KernelFault::NoConnection);

#[test]
fn a_full_journal(rt: HostRuntime) {
    run_rows(&rt, rt.alloc(), 6, FULL_JOURNAL);
}
