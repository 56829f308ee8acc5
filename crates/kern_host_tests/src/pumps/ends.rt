//! How the worker and the pumps end: by a gate, a full journal, dropped posts, an unknown connection, or a
//! shutdown.

use crate::pumps::conversations::expect_told;
use crate::pumps::messages::{Part, TWO};
use crate::pumps::rows::expect_at;
use crate::pumps::table::{Table, open_table, unsigned_origin};
use crate::pumps::talks::{AMPLE, BOTH_END, Client, TWICE, read_as, talk_at};
use base_streams::memory::Sink;
use jup_wire::channel::Channel;
use kern_core::fault::KernelFault;
use kern_desk::desks::MOST_ENTRIES;
use kern_net::end::PumpEnd;
use kern_net_kit::bytes::count_of;
use kern_net_kit::gates::{InGate, OutGate, Quiet, UpTo, WorkGate};
use std::alloc::Global;
use std::process::Abort;
use std::sync::Wait;
use zmtp_wire::peer_fault::PeerFault;

// The journal's limit, how often `before` and `idle` are to answer yes, how the worker ends, how often each
// answered yes and no by then, and the calls in the journal: S for a Slice.
type Work = (u32, u64, u64, PumpEnd, [u64; 4], &'static str);

const WORK: [Work; 4] = [
    (MOST_ENTRIES, 2, 99, PumpEnd::Ended, [2, 1, 2, 0], "SS"),
    (MOST_ENTRIES, 99, 1, PumpEnd::Ended, [2, 0, 1, 1], "SS"),
    (MOST_ENTRIES, 0, 0, PumpEnd::Ended, [0, 1, 0, 0], ""),
    // The journal is full at the worker's fourth Slice, for which `before` said yes.
    (3, 99, 99, PumpEnd::JournalFull, [4, 0, 3, 0], "SSS"),
];

// Without a request the worker makes a Slice for each yes, and after each it wakes the others and polls
// `idle`.
fn check_work<R: Wait + Abort>(rt: &R, alloc: Global, row: Work, place: usize) {
    let (limit, befores, idles, wanted, said, calls) = row;
    let mut table = open_table(rt, alloc, limit);
    let mut gate = WorkGate::new(UpTo { befores, idles });
    let end = table.work(rt, &mut gate);
    let is_called = table.is_told(rt, alloc, calls);
    expect_at(rt, end == wanted, "another end", place, 0);
    expect_at(rt, gate.answers() == said, "polled otherwise", place, 0);
    let wakes = gate.polls.wakes();
    expect_at(rt, wakes == calls.len() as u64, "wakes", place, wakes);
    expect_at(rt, is_called, "other calls", place, 0);
}

#[test]
fn work_without_requests(rt: HostRuntime) {
    for (place, row) in WORK.iter().enumerate() {
        check_work(&rt, rt.alloc(), *row, place);
    }
}

const REQUEST: &[Part] = &[Part::Dealer, Part::Unsigned, Part::Info];

/// Whether the handshake succeeded and reading ended like this.
pub fn has_ended(read: Result<PumpEnd, PeerFault>, wanted: PumpEnd) -> bool {
    match read {
        Ok(end) => end == wanted,
        Err(_) => false,
    }
}

// Connection 1 makes a request.
fn ask<R: Wait + Abort>(rt: &R, alloc: Global, table: &mut Table, given: &[Part]) {
    let mut gate = InGate::new(Quiet);
    let origin = unsigned_origin(Channel::Shell, 1);
    let end = read_as(rt, alloc, table, &mut gate, origin, given);
    let has_ended = has_ended(end, PumpEnd::PeerEnded);
    expect_at(rt, has_ended, "another end of a request", 0, 0);
}

// Connection 1 joins, and sends a number of kernel_info_requests.
fn ask_often<R: Wait + Abort>(rt: &R, alloc: Global, table: &mut Table, count: u32) {
    let connection = table.join(rt, alloc, Channel::Shell);
    expect_at(rt, connection == 1, "connection", 0, u64::from(connection));
    for _ in 0..count {
        ask(rt, alloc, table, REQUEST);
    }
}

// How writing ended, what its gate answered, how many bytes and replies were written, and how often the
// replies that are posts 4,034 and 4,094.
#[derive(Clone, Copy)]
struct Wrote {
    end: PumpEnd,
    said: [u64; 2],
    bytes: usize,
    replies: u32,
    first: u32,
    last: u32,
}

// Writes the posts from a number on.
fn write_from<R: Wait>(
    rt: &R,
    alloc: Global,
    table: &mut Table,
    connection: u32,
    from: u64,
) -> Wrote {
    let mut to = Sink::new(alloc, 1 << 20, 9999);
    let mut gate = OutGate::new(TWICE);
    let end = table.write(rt, alloc, &mut gate, &mut to, connection, from);
    let wrote = Wrote {
        end,
        said: gate.answers(),
        bytes: to.as_slice().len(),
        replies: count_of(to.as_slice(), b"<IDS|MSG>"),
        first: count_of(to.as_slice(), b"\"S_4034\""),
        last: count_of(to.as_slice(), b"\"S_4094\""),
    };
    drop(to);
    wrote
}

// The journal is full at the writer's second Fetch, and there is more to write: the first covers 64 of 90
// numbers.
#[test]
fn a_journal_full_of_requests(rt: HostRuntime) {
    let mut table = open_table(&rt, rt.alloc(), 32);
    ask_often(&rt, rt.alloc(), &mut table, 30);
    let wrote = write_from(&rt, rt.alloc(), &mut table, 1, 1);
    let is_called = table.is_told(&rt, rt.alloc(), "JAAAAAAAAAAAAAAAAAAAAAAAAAAAAAAF");
    expect_at(&rt, is_called, "other calls", 0, 0);
    expect_at(&rt, wrote.end == PumpEnd::JournalFull, "another end", 0, 0);
    expect_at(&rt, wrote.said == [0, 0], "polled", 0, 0);
    expect_at(
        &rt,
        wrote.replies == 21,
        "replies",
        0,
        u64::from(wrote.replies),
    );
}

// The first post to write, how writing ends, how many replies are written, and how often those that are posts
// 4,034 and 4,094.
const STARTS: [(u64, PumpEnd, u32, u32, u32); 7] = [
    (0, PumpEnd::Lagged, 0, 0, 0),
    (1, PumpEnd::Lagged, 0, 0, 0),
    (2, PumpEnd::Ended, 1365, 1, 1),
    (4034, PumpEnd::Ended, 21, 1, 1),
    (4035, PumpEnd::Ended, 20, 0, 1),
    (4095, PumpEnd::Ended, 0, 0, 0),
    (4098, PumpEnd::Ended, 0, 0, 0),
];

fn check_starts<R: Wait + Abort>(rt: &R, alloc: Global, table: &mut Table) {
    for (place, (from, end, replies, first, last)) in STARTS.iter().enumerate() {
        let wrote = write_from(rt, alloc, table, 1, *from);
        let counts = [wrote.replies, wrote.first, wrote.last];
        expect_at(rt, wrote.end == *end, "another end", place, *from);
        let is_wanted = counts == [*replies, *first, *last];
        expect_at(rt, is_wanted, "replies", place, u64::from(wrote.replies));
    }
}

// A connection makes 1,365 requests with three posts each, and one of an unknown type with two: 4,097 posts,
// of which the first is dropped. Writing ends at dropped posts; all others are written, 64 numbers a Fetch.
#[test]
fn posts_that_are_gone(rt: HostRuntime) {
    let mut table = open_table(&rt, rt.alloc(), MOST_ENTRIES);
    ask_often(&rt, rt.alloc(), &mut table, 1365);
    ask(
        &rt,
        rt.alloc(),
        &mut table,
        &[Part::Dealer, Part::Unsigned, Part::Unknown],
    );
    check_starts(&rt, rt.alloc(), &mut table);
    drop(table.close(&rt, rt.alloc()));
}

const REFUSED: PumpEnd = PumpEnd::Refused(KernelFault::NoConnection);

// Nobody has joined. The first call of each pump is refused, but is an entry; the writer writes nothing.
#[test]
fn no_connection(rt: HostRuntime) {
    let mut table = open_table(&rt, rt.alloc(), MOST_ENTRIES);
    let wrote = write_from(&rt, rt.alloc(), &mut table, 9, 1);
    let mut gate = InGate::new(Quiet);
    let origin = unsigned_origin(Channel::Shell, 9);
    let end = read_as(&rt, rt.alloc(), &mut table, &mut gate, origin, TWO);
    let is_called = table.is_told(&rt, rt.alloc(), "FA");
    expect_at(&rt, wrote.end == REFUSED, "another end of writing", 0, 0);
    expect_at(&rt, wrote.said == [0, 0], "polled", 0, 0);
    expect_at(&rt, wrote.bytes == 0, "bytes", 0, wrote.bytes as u64);
    expect_at(&rt, has_ended(end, REFUSED), "another end of reading", 0, 0);
    expect_at(&rt, gate.wakes == 0, "wakes", 0, gate.wakes);
    expect_at(&rt, gate.own_wakes == 1, "own_wakes", 0, gate.own_wakes);
    expect_at(&rt, is_called, "other calls", 0, 0);
}

// After a shutdown the writer writes what is left, by one Fetch, and ends; the worker ends after one Slice.
// No `idle` is polled. The replies have 478 and 238 bytes, after the 94 of the handshake.
#[test]
fn shut_down(rt: HostRuntime) {
    let mut table = open_table(&rt, rt.alloc(), MOST_ENTRIES);
    let given = [
        Part::Dealer,
        Part::Unsigned,
        Part::Info,
        Part::Unsigned,
        Part::Shutdown,
    ];
    let told = talk_at(&rt, rt.alloc(), &mut table, Client::Closing, &given, AMPLE);
    let mut gate = WorkGate::new(UpTo {
        befores: 99,
        idles: 99,
    });
    let end = table.work(&rt, &mut gate);
    let is_called = table.is_told(&rt, rt.alloc(), "JAAFS");
    expect_told(&rt, told, BOTH_END, 810, 0);
    expect_at(&rt, is_called, "other calls", 0, 0);
    expect_at(&rt, end == PumpEnd::Ended, "another end", 0, 0);
    expect_at(&rt, gate.answers() == [1, 0, 0, 0], "polled", 0, 0);
}
