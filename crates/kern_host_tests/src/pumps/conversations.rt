//! Conversations with a new kernel: what is written, how reading and writing end, and which calls are made.

use crate::pumps::messages::Part::{
    BadCommand, BadFlags, BadSize, Dealer, Empty, Example, Forged, ForgedExample, Info, Letter,
    NoSubscription, Signed, Sub, TwoFrames, Unsigned, WantsAll, WantsNoMore, WantsStatus,
    WantsStream,
};
use crate::pumps::messages::{Part, TWO};
use crate::pumps::rows::expect_at;
use crate::pumps::table::open_table;
use crate::pumps::talks::Client::{Shell, Signing, Subscriber};
use crate::pumps::talks::{AMPLE, BOTH_END, BYTE_BY_BYTE, Client, Course, Pace, Told, talk_at};
use kern_desk::desks::MOST_ENTRIES;
use kern_net::end::PumpEnd;
use std::alloc::Global;
use std::process::Abort;
use std::sync::Wait;
use zmtp_wire::fault::StreamFault;
use zmtp_wire::peer_fault::PeerFault;

// A client and what it writes, how the conversation ends, how many bytes are written to it, and the calls in
// the journal: J for a Join, U for a Subscribe, A for an Arrive, F for a Fetch.
type Row = (Client, &'static [Part], Course, usize, &'static str);

const FLAGS: Course = Course::Met(PumpEnd::Wire(StreamFault::Flags), PumpEnd::Ended);

const FRAME_SIZE: Course = Course::Met(PumpEnd::Wire(StreamFault::FrameSize), PumpEnd::Ended);

const COMMAND: Course = Course::Met(PumpEnd::Wire(StreamFault::Command), PumpEnd::Ended);

// The handshake has 94 bytes on shell and 91 on iopub, the reply to a request 478, and a subscriber's first
// status 175.
const ROWS: [Row; 22] = [
    // A handshake and nothing else: three Fetches, after the last of which the gate says no.
    (Shell, &[Dealer], BOTH_END, 94, "JFFF"),
    // One request: a Fetch that gives its reply, and two that give nothing.
    (Shell, &[Dealer, Unsigned, Info], BOTH_END, 572, "JAFFF"),
    // Subscriptions, one that is taken back, and what is none.
    (Subscriber, &[Sub, WantsAll], BOTH_END, 266, "JUFFF"),
    (Subscriber, &[Sub, WantsStatus], BOTH_END, 266, "JUFFF"),
    (Subscriber, &[Sub, WantsStream], BOTH_END, 91, "JUFFF"),
    (Subscriber, &[Sub, WantsNoMore], BOTH_END, 91, "JUFFF"),
    (Subscriber, &[Sub, NoSubscription], BOTH_END, 91, "JFFF"),
    (Subscriber, &[Sub, Empty], BOTH_END, 91, "JFFF"),
    (Subscriber, &[Sub, TwoFrames], BOTH_END, 91, "JFFF"),
    (
        Subscriber,
        &[Sub, NoSubscription, WantsAll],
        BOTH_END,
        266,
        "JUFFF",
    ),
    // Broken streams. A message before what breaks the stream is asked for, also where they come in one
    // piece with READY.
    (Shell, &[Dealer, BadFlags], FLAGS, 94, "JFFF"),
    (Shell, &[Dealer, BadSize], FRAME_SIZE, 94, "JFFF"),
    (Shell, &[Dealer, BadCommand], COMMAND, 94, "JFFF"),
    (Shell, &[Dealer, Letter], BOTH_END, 94, "JFFF"),
    (
        Shell,
        &[Dealer, Unsigned, Info, BadFlags, Unsigned, Info],
        FLAGS,
        572,
        "JAFFF",
    ),
    // What isn't signed with the key, or is no message, makes no turn, and the connection goes on.
    (Signing, &[Dealer, Example], BOTH_END, 94, "JFFF"),
    (Signing, &[Dealer, ForgedExample], BOTH_END, 94, "JFFF"),
    (Signing, &[Dealer, Forged, Info], BOTH_END, 94, "JFFF"),
    (Signing, &[Dealer, Unsigned, Info], BOTH_END, 94, "JFFF"),
    (Signing, &[Dealer, Signed, Info], BOTH_END, 572, "JAFFF"),
    (
        Signing,
        &[Dealer, Forged, Info, Example, Signed, Info],
        BOTH_END,
        572,
        "JAFFF",
    ),
    (
        Signing,
        &[Dealer, Signed, Info, Forged, Info, Unsigned, Info],
        BOTH_END,
        572,
        "JAFFF",
    ),
];

// A client of the wrong kind isn't met: its READY comes in one piece with its greeting, so that no READY is
// written to it.
const UNMET: Row = (
    Shell,
    &[Sub],
    Course::Unmet(PeerFault::Wire(StreamFault::SocketType)),
    64,
    "",
);

const BOTH_FULL: Course = Course::Met(PumpEnd::JournalFull, PumpEnd::JournalFull);

const WRITER_FULL: Course = Course::Met(PumpEnd::PeerEnded, PumpEnd::JournalFull);

// The journal's limit, how a conversation of two requests ends, how many bytes are written, and the calls.
const JOURNALS: [(u32, Course, usize, &str); 6] = [
    (1, BOTH_FULL, 94, "J"),
    (2, BOTH_FULL, 94, "JA"),
    (3, WRITER_FULL, 94, "JAA"),
    (4, WRITER_FULL, 1050, "JAAF"),
    (5, WRITER_FULL, 1050, "JAAFF"),
    (6, BOTH_END, 1050, "JAAFFF"),
];

/// Fails the test in this row unless a conversation ended like this.
pub fn expect_told<R: Abort>(rt: &R, told: Told, course: Course, written: usize, row: usize) {
    let bytes = told.written as u64;
    expect_at(rt, told.is_front, "other bytes", row, bytes);
    expect_at(rt, told.written == written, "not as many bytes", row, bytes);
    expect_at(rt, told.course == course, "another course", row, bytes);
}

fn check_row<R: Wait + Abort>(
    rt: &R,
    alloc: Global,
    row: Row,
    limit: u32,
    place: usize,
    pace: Pace,
) {
    let (client, given, course, written, calls) = row;
    let mut table = open_table(rt, alloc, limit);
    let told = talk_at(rt, alloc, &mut table, client, given, pace);
    let is_called = table.is_told(rt, alloc, calls);
    expect_told(rt, told, course, written, place);
    expect_at(rt, is_called, "other calls", place, pace.read.0 as u64);
}

// Byte by byte, conversations go the same.
#[test]
fn conversations(rt: HostRuntime) {
    for (place, row) in ROWS.iter().enumerate() {
        check_row(&rt, rt.alloc(), *row, MOST_ENTRIES, place, AMPLE);
        check_row(&rt, rt.alloc(), *row, MOST_ENTRIES, place, BYTE_BY_BYTE);
    }
    check_row(&rt, rt.alloc(), UNMET, MOST_ENTRIES, ROWS.len(), AMPLE);
}

// Two requests, with a journal that is full at some point or not at all.
#[test]
fn full_journals(rt: HostRuntime) {
    for (place, (limit, course, written, calls)) in JOURNALS.iter().enumerate() {
        let row = (Shell, TWO, *course, *written, *calls);
        check_row(&rt, rt.alloc(), row, *limit, place, AMPLE);
        check_row(&rt, rt.alloc(), row, *limit, place, BYTE_BY_BYTE);
    }
}
