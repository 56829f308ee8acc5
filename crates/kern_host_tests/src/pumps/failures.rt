//! Each read and each write of a conversation fails once. What is written is cut off there, and no calls are
//! made but for what was read before.

use crate::pumps::conversations::expect_told;
use crate::pumps::messages::Part;
use crate::pumps::table::open_table;
use crate::pumps::talks::{BOTH_END, Client, Course, Pace, Told, talk_at};
use kern_desk::desks::MOST_ENTRIES;
use kern_net::end::PumpEnd;
use std::alloc::Global;
use std::process::Abort;
use std::sync::Wait;
use zmtp_wire::peer_fault::PeerFault;

const UNREAD: Course = Course::Unmet(PeerFault::ReadFailed);

const READ_FAILS: Course = Course::Met(PumpEnd::ReadFailed, PumpEnd::Ended);

const UNWRITTEN: Course = Course::Unmet(PeerFault::WriteFailed);

const WRITE_FAILS: Course = Course::Met(PumpEnd::PeerEnded, PumpEnd::WriteFailed);

// What fails, after a number of calls.
#[derive(Clone, Copy)]
enum Failing {
    Reads,
    Writes,
}

// What fails, and how many bytes a call of it moves at most; the least and the greatest number of calls
// before the one that fails; how the conversation ends then, and how many bytes are written for the least
// number.
type Row = (Failing, usize, u64, u64, Course, usize);

// One kernel_info_request. The greeting and READY have 94 bytes, the request has 90, and the reply 478.
const ROWS: [Row; 24] = [
    (Failing::Reads, 1, 0, 63, UNREAD, 64),
    (Failing::Reads, 1, 64, 93, UNREAD, 94),
    (Failing::Reads, 1, 94, 183, READ_FAILS, 94),
    (Failing::Reads, 1, 184, 184, READ_FAILS, 572),
    (Failing::Reads, 1, 185, 185, BOTH_END, 572),
    (Failing::Reads, 100, 0, 0, UNREAD, 64),
    (Failing::Reads, 100, 1, 1, READ_FAILS, 94),
    (Failing::Reads, 100, 2, 2, READ_FAILS, 572),
    (Failing::Reads, 100, 3, 3, BOTH_END, 572),
    (Failing::Reads, 4096, 0, 0, UNREAD, 64),
    (Failing::Reads, 4096, 1, 1, READ_FAILS, 572),
    (Failing::Reads, 4096, 2, 2, BOTH_END, 572),
    // One byte is written for each call.
    (Failing::Writes, 1, 0, 93, UNWRITTEN, 0),
    (Failing::Writes, 1, 94, 571, WRITE_FAILS, 94),
    (Failing::Writes, 1, 572, 572, BOTH_END, 572),
    // A writer that takes nothing, everything, or a hundred bytes.
    (Failing::Writes, 0, 9999, 9999, UNWRITTEN, 0),
    (Failing::Writes, 4096, 0, 0, UNWRITTEN, 0),
    (Failing::Writes, 4096, 1, 1, UNWRITTEN, 64),
    (Failing::Writes, 4096, 2, 2, WRITE_FAILS, 94),
    (Failing::Writes, 4096, 3, 3, BOTH_END, 572),
    (Failing::Writes, 100, 2, 2, WRITE_FAILS, 94),
    (Failing::Writes, 100, 3, 3, WRITE_FAILS, 194),
    (Failing::Writes, 100, 6, 6, WRITE_FAILS, 494),
    (Failing::Writes, 100, 7, 7, BOTH_END, 572),
];

// How the conversation ends over ports of this pace.
fn outcome<R: Wait + Abort>(rt: &R, alloc: Global, pace: Pace) -> Told {
    let mut table = open_table(rt, alloc, MOST_ENTRIES);
    let given = [Part::Dealer, Part::Unsigned, Part::Info];
    let told = talk_at(rt, alloc, &mut table, Client::Shell, &given, pace);
    drop(table.close(rt, alloc));
    told
}

// The pace at which a call fails.
fn pace_of(failing: Failing, most: usize, calls: u64) -> Pace {
    match failing {
        Failing::Reads => Pace {
            read: (most, calls),
            written: (4096, 9999),
        },
        Failing::Writes => Pace {
            read: (4096, 9999),
            written: (most, calls),
        },
    }
}

// How many more bytes are written if this many more calls of one byte are made.
fn more_at(failing: Failing, more: u64) -> usize {
    match failing {
        Failing::Reads => 0,
        Failing::Writes => more as usize,
    }
}

fn check_row<R: Wait + Abort>(rt: &R, alloc: Global, row: Row, place: usize) {
    let (failing, most, first, last, course, written) = row;
    for calls in first..=last {
        let told = outcome(rt, alloc, pace_of(failing, most, calls));
        let more = more_at(failing, calls.saturating_sub(first));
        expect_told(rt, told, course, written.saturating_add(more), place);
    }
}

#[test]
fn failing_ports(rt: HostRuntime) {
    for (place, row) in ROWS.iter().enumerate() {
        check_row(&rt, rt.alloc(), *row, place);
    }
}
