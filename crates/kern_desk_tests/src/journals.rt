//! Compares journals with the recorded calls, and replays them on a new kernel.

use crate::checks::expect_at;
use crate::turns::{Row, Turn, act};
use kern_core::kernel::Kernel;
use kern_desk::desks::MOST_ENTRIES;
use kern_desk::seated::Seated;
use kern_test_kit::actions::is_call;
use std::alloc::Global;
use std::process::Abort;

/// An entry of a journal, with the outcome of the call.
#[derive(Clone, Copy)]
pub struct Entry {
    pub seat: u32,
    pub turn: Turn,
}

/// The entries of a journal, given the turns of each seat. The journal must have exactly their calls, those
/// of each seat in their order.
pub fn merge<R: Abort>(rt: &R, alloc: Global, seated: &Seated, made: &[Vec<Turn>]) -> Vec<Entry> {
    let count = count_of(made);
    expect_at(
        rt,
        seated.entry(count).is_none(),
        "entries past",
        count as u64,
    );
    let mut entries = Vec::new(alloc);
    let mut next = [0usize; 3];
    for place in 0..count {
        let entry = entry_at(rt, seated, made, &mut next, place);
        entries.push(entry).expect(rt, "memory for an entry");
    }
    entries
}

fn count_of(made: &[Vec<Turn>]) -> usize {
    let mut count = 0usize;
    for turns in made {
        count = count.saturating_add(turns.len());
    }
    count
}

// The entry at an index, which must be the next call of its seat.
fn entry_at<R: Abort>(
    rt: &R,
    seated: &Seated,
    made: &[Vec<Turn>],
    next: &mut [usize; 3],
    place: usize,
) -> Entry {
    let (seat, call) = seated.entry(place).expect(rt, "an entry for each call");
    let at = count_up(rt, next, seat);
    let turns = made.get(seat as usize).expect(rt, "the calls of a seat");
    let turn = *turns.get(at).expect(rt, "no more entries than calls");
    let is_made = is_call(call, turn.call.action, turn.call.unix_seconds);
    expect_at(rt, is_made, "another call at entry", place as u64);
    Entry { seat, turn }
}

// How many calls of the seat come before this one. The next time it is one more.
fn count_up<R: Abort>(rt: &R, next: &mut [usize; 3], seat: u32) -> usize {
    let count = next.get_mut(seat as usize).expect(rt, "one of three seats");
    let at = *count;
    *count = at.saturating_add(1);
    at
}

/// A new kernel, on which no call was made.
pub fn new_kernel<R: Abort>(rt: &R, alloc: Global) -> Kernel {
    Kernel::new(alloc, MOST_ENTRIES).expect(rt, "memory for a kernel")
}

/// Replays the calls on a new kernel in the order of the journal. They must have the same outcomes.
pub fn replay<R: Abort>(rt: &R, alloc: Global, entries: &[Entry]) {
    let mut kernel = new_kernel(rt, alloc);
    make_again(rt, alloc, &mut kernel, entries);
    drop(kernel);
}

fn make_again<R: Abort>(rt: &R, alloc: Global, kernel: &mut Kernel, entries: &[Entry]) {
    for (place, entry) in entries.iter().enumerate() {
        let again = act(rt, alloc, kernel, entry.turn.call);
        expect_at(rt, again == entry.turn.outcome, "entry", place as u64);
    }
}

/// Expects the entries of a journal to be exactly the calls of these rows.
pub fn check_rows<R: Abort>(rt: &R, seated: &Seated, rows: &[Row]) {
    for (place, row) in rows.iter().enumerate() {
        expect_at(rt, is_row(seated, place, *row), "entry", place as u64);
    }
    let count = rows.len();
    expect_at(
        rt,
        seated.entry(count).is_none(),
        "entries past",
        count as u64,
    );
}

fn is_row(seated: &Seated, place: usize, row: Row) -> bool {
    match seated.entry(place) {
        Some((seat, call)) => seat == row.0 && is_call(call, row.1, place as u64),
        None => false,
    }
}
