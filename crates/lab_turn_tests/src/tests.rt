//! The turnstile over a counter.
ghost use Rattle.std.specs.Prelude.{◌≡◌, IfSome};

use super::*;
use lab_turn::fault::TurnFault;
use lab_turn::pass::Pass;
use lab_turn::turnstile::{CloseFault, OpenFault, Turnstile};
use std::process::Abort;
use std::sync::Wait;
use std::test::Fail;
use std::thread::Threads;
use std::{fmt, thread};

// A turnstile over a new counter, with its two passes, those of seat 0 and 1.
fn open_two(alloc: Global, limit: u64) -> Option<(Turnstile<Counter>, Pass<Counter>, Pass<Counter>)>
    ensures { IfSome result (λ t. (t.1.turnstile ≡ t.0) × (t.2.turnstile ≡ t.0)) }
{
    let counter = Counter::new(alloc, limit).with_label(80);
    let Ok((desk, mut passes)) = Turnstile::open(alloc, counter, 2) else {
        return None;
    };
    let (Some(second), Some(first)) = (passes.pop(), passes.pop()) else {
        return None;
    };
    Some((desk, first, second))
}

// Takes a thousand turns with the marks from 0 on, whose replies increase.
fn thousand<R: Wait + Abort>(
    rt: &R,
    desk: &Turnstile<Counter>,
    mut pass: Pass<Counter>,
) -> Pass<Counter>
    requires { pass.turnstile ≡ desk.now }
    ensures { result.turnstile ≡ desk.now }
{
    let mut last = 0;
    for mark in 0..1000 {
        let count = desk
            .turn(rt, &mut pass, mark)
            .expect(rt, "a turn")
            .expect(rt, "memory");
        assert!(rt; last < count, "{last} before {count}");
        last = count;
    }
    pass
}

// Both passes take a thousand turns, each in a thread of its own.
fn race<R: Threads + Wait + Abort + Sync>(
    rt: &R,
    desk: &Turnstile<Counter>,
    first: Pass<Counter>,
    second: Pass<Counter>,
) -> (Pass<Counter>, Pass<Counter>)
    requires first { first.turnstile ≡ desk.now }
    requires second { second.turnstile ≡ desk.now }
    ensures first { result.0.turnstile ≡ desk.now }
    ensures second { result.1.turnstile ≡ desk.now }
{
    thread::join(
        rt,
        move || -> Pass<Counter>
            requires { first.turnstile ≡ desk.now }
            ensures { result.turnstile ≡ desk.entry.now }
        { thousand(rt, desk, first) },
        move || -> Pass<Counter>
            requires { second.turnstile ≡ desk.now }
            ensures { result.turnstile ≡ desk.entry.now }
        { thousand(rt, desk, second) },
    )
}

// Whether the marks of each of the two seats count up from 0.
fn are_in_order(entries: &[(u32, u32)]) -> bool {
    let mut marks = [0, 0];
    for (seat, mark) in entries {
        let at = *seat as usize;
        if at >= 2 || *mark != marks[at] {
            return false;
        }
        marks[at] = mark.wrapping_add(1);
    }
    true
}

#[test]
fn two_threads(rt: HostRuntime) -> Result<(), Fail> {
    let Some((desk, first, second)) = open_two(rt.alloc(), 1 << 20) else {
        return Err("memory".into());
    };
    let (first, second) = race(&rt, &desk, first, second);
    let passes = vec![in rt.alloc(); second, first].expect(&rt, "memory");
    let counter = desk.close(passes)?;
    let (count, are_in_order) = (counter.value(), are_in_order(counter.entries()));
    drop(counter);
    assert!(rt; count == 2000 && are_in_order);
    Ok(())
}

type Answer = Result<Result<u64, CountFault>, TurnFault>;

// Four turns with the marks 7 to 10, by the two passes in turn.
fn four_turns<R: Wait>(
    rt: &R,
    desk: &Turnstile<Counter>,
    first: &mut Pass<Counter>,
    second: &mut Pass<Counter>,
) -> [Answer; 4]
    requires first { first.old.turnstile ≡ desk.now }
    requires second { second.old.turnstile ≡ desk.now }
    ensures first { first.new.turnstile ≡ desk.now }
    ensures second { second.new.turnstile ≡ desk.now }
{
    [
        desk.turn(rt, first, 7),
        desk.turn(rt, second, 8),
        desk.turn(rt, first, 9),
        desk.turn(rt, second, 10),
    ]
}

fn expect_text<T: fmt::Display>(rt: &impl Abort, alloc: Global, shown: &T, wanted: &str) {
    let text = format!(in alloc; "{shown}").expect(rt, "memory");
    assert!(rt; text.as_str() == wanted);
}

// Closes the turnstile without the second pass, which is refused, and then with both.
fn close_twice(
    rt: &impl Abort,
    alloc: Global,
    desk: Turnstile<Counter>,
    first: Pass<Counter>,
    second: Pass<Counter>,
) -> Result<Counter, Fail>
    requires first { first.turnstile ≡ desk }
    requires second { second.turnstile ≡ desk }
{
    let passes = vec![in alloc; first].expect(rt, "memory");
    let Err(fault) = desk.close(passes) else {
        drop(second);
        return Err("closed without a pass".into());
    };
    expect_text(rt, alloc, &fault, "a pass of the turnstile is missing");
    let CloseFault::MissingPass {
        turnstile,
        mut passes,
    } = fault;
    assert!(rt; passes.len() == 1);
    passes.push(second).expect(rt, "memory");
    Ok(turnstile.close(passes)?)
}

#[test]
fn calls_of_two_seats(rt: HostRuntime) -> Result<(), Fail> {
    let Some((desk, mut first, mut second)) = open_two(rt.alloc(), 3) else {
        return Err("memory".into());
    };
    let answers = four_turns(&rt, &desk, &mut first, &mut second);
    let counter = close_twice(&rt, rt.alloc(), desk, first, second)?;
    let (count, label) = (counter.value(), counter.label());
    let are_kept = counter.entries() == [(0, 7), (1, 8), (0, 9)].as_slice();
    drop(counter);
    assert!(rt; answers == [Ok(Ok(1)), Ok(Ok(2)), Ok(Ok(3)), Ok(Err(CountFault::Full))]);
    assert!(rt; count == 3 && are_kept && label == 80);
    Ok(())
}

const COUNT_FAULTS: [(CountFault, &str); 2] = [
    (CountFault::OutOfMemory, "out of memory"),
    (CountFault::Full, "the counter is at its limit"),
];

#[test]
fn texts(rt: HostRuntime) {
    let out_of_tickets = "all tickets of the turnstile are drawn";
    expect_text(&rt, rt.alloc(), &TurnFault::OutOfTickets, out_of_tickets);
    let refused = OpenFault::OutOfMemory(Counter::new(rt.alloc(), 1));
    expect_text(&rt, rt.alloc(), &refused, "out of memory");
    drop(refused);
    for (fault, text) in &COUNT_FAULTS {
        expect_text(&rt, rt.alloc(), fault, text);
    }
}

#[test]
fn seats_are_shown(rt: HostRuntime) -> Result<(), Fail> {
    let (desk, passes) = Turnstile::open(rt.alloc(), Counter::new(rt.alloc(), 1), 1)?;
    let text = format!(in rt.alloc(); "{desk:?} {passes:?}");
    drop(passes);
    drop(desk);
    assert!(rt; text?.as_str() == "Turnstile { seats: 1 } [Pass { seat: 0 }]");
    Ok(())
}
