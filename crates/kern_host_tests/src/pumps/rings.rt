//! Whom a reader wakes after the calls of a conversation: everybody, or only those to whom a call may have
//! posted that gave the worker nothing to do.

use crate::pumps::ends::has_ended;
use crate::pumps::messages::Part::{
    BoardReset, Dealer, Execute, Info, Interrupt, NoSubscription, Shutdown, Sub, Threads, Unknown,
    Unsigned, WantsAll, WantsNoMore,
};
use crate::pumps::messages::{Part, TWO};
use crate::pumps::rows::expect_at;
use crate::pumps::table::{open_table, unsigned_origin};
use crate::pumps::talks::read_as;
use jup_wire::channel::Channel;
use kern_desk::desks::MOST_ENTRIES;
use kern_net::end::PumpEnd;
use kern_net_kit::gates::{InGate, Quiet};
use std::alloc::Global;
use std::process::Abort;
use std::sync::Wait;

// A channel, what is written on it, and how often `wake` and `wake_own_writers` are called.
type Row = (Channel, &'static [Part], u64, u64);

const ROWS: [Row; 11] = [
    (Channel::Shell, &[Dealer], 0, 0),
    (Channel::Shell, TWO, 0, 2),
    (Channel::Shell, &[Dealer, Unsigned, Unknown], 0, 1),
    (Channel::Shell, &[Dealer, Unsigned, Execute], 1, 0),
    (Channel::Control, &[Dealer, Unsigned, Interrupt], 1, 0),
    (Channel::Control, &[Dealer, Unsigned, Threads], 0, 1),
    (Channel::Control, &[Dealer, Unsigned, BoardReset], 1, 0),
    (Channel::Control, &[Dealer, Unsigned, Shutdown], 1, 0),
    (Channel::Iopub, &[Sub, WantsAll, WantsNoMore], 0, 2),
    (Channel::Iopub, &[Sub, NoSubscription], 0, 0),
    (
        Channel::Control,
        &[Dealer, Unsigned, Info, Unsigned, Interrupt, Unsigned, Info],
        1,
        2,
    ),
];

fn check_row<R: Wait + Abort>(rt: &R, alloc: Global, row: Row, place: usize) {
    let (channel, given, wakes, own_wakes) = row;
    let mut table = open_table(rt, alloc, MOST_ENTRIES);
    let connection = table.join(rt, alloc, channel);
    let mut gate = InGate::new(Quiet);
    let origin = unsigned_origin(channel, connection);
    let read = read_as(rt, alloc, &mut table, &mut gate, origin, given);
    let has_ended = has_ended(read, PumpEnd::PeerEnded);
    expect_at(rt, has_ended, "another end", place, 0);
    expect_at(rt, gate.wakes == wakes, "wakes", place, gate.wakes);
    expect_at(
        rt,
        gate.own_wakes == own_wakes,
        "own_wakes",
        place,
        gate.own_wakes,
    );
    drop(table.close(rt, alloc));
}

#[test]
fn rings_of_a_reader(rt: HostRuntime) {
    for (place, row) in ROWS.iter().enumerate() {
        check_row(&rt, rt.alloc(), *row, place);
    }
}
