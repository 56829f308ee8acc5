//! Calls of several seats, one after the other.
ghost use Rattle.std.specs.Prelude.{◌≡◌, ◌≤◌, All};

use crate::checks::expect_at;
use crate::journals::{Entry, check_rows};
use crate::outcomes::{Outcome, outcome_of};
use crate::turns::{Row, Turn, make};
use dap_answers::answer::{Body, Outcome as DebugOutcome};
use jup_wire::channel::Channel;
use kern_core::call::Reply;
use kern_core::fault::KernelFault;
use kern_desk::desks::{MOST_ENTRIES, close_desk, open_desk};
use kern_desk::seated::{Desk, Pass, Seated};
use kern_post::content::Content;
use kern_post::post::Post;
use kern_test_kit::actions::{Action, Question, call_of};
use lab_turn::turnstile::CloseFault;
use std::alloc::Global;
use std::process::Abort;
use std::sync::Wait;

// The entry that the row at an index makes.
fn entry_of(row: Row, place: usize) -> Entry {
    let (seat, action, outcome) = row;
    let turn = Turn::new(action, place as u64, outcome);
    Entry { seat, turn }
}

// Makes the call of an entry, and expects its outcome.
fn make_entry<R: Wait + Abort>(
    rt: &R,
    alloc: Global,
    desk: &Desk,
    passes: &mut [Pass],
    entry: Entry,
)
    requires { All (λ p. p.turnstile ≡ desk.now) passes.old }
    ensures { All (λ p. p.turnstile ≡ desk.now) passes.new }
{
    let Entry { seat, turn } = entry;
    let seat = seat as usize;
    assert!(rt; seat < passes.len());
    let outcome = make(rt, alloc, desk, &mut passes[seat], turn.call);
    expect_at(rt, outcome == turn.outcome, "row", turn.call.unix_seconds);
}

fn make_rows<R: Wait + Abort>(rt: &R, alloc: Global, desk: &Desk, passes: &mut [Pass], rows: &[Row])
    requires { All (λ p. p.turnstile ≡ desk.now) passes.old }
    ensures { All (λ p. p.turnstile ≡ desk.now) passes.new }
{
    for (place, row) in rows.iter().enumerate() {
        make_entry(rt, alloc, desk, passes, entry_of(*row, place));
    }
}

fn ends_full(seated: Seated) -> bool {
    let kernel = seated.into_kernel();
    let is_full = kernel.full();
    drop(kernel);
    is_full
}

// Expects a journal to have exactly the calls of these rows, and to be full or not.
fn check_closed<R: Abort>(rt: &R, seated: Seated, entries: &[Row], is_full: bool) {
    check_rows(rt, &seated, entries);
    assert!(rt; ends_full(seated) == is_full);
}

/// Makes the calls of the rows at a desk of three seats, and closes it. Its journal must then have the
/// calls of the first rows, up to the limit.
pub fn run_rows<R: Wait + Abort>(rt: &R, alloc: Global, limit: u32, rows: &[Row])
    requires { (1 ≤ limit) × (limit ≤ 4194304) }
{
    let (desk, mut passes) = open_desk(alloc, limit, 3).expect(rt, "a desk");
    make_rows(rt, alloc, &desk, passes.as_mut_slice(), rows);
    let seated = close_desk(desk, passes).expect(rt, "all passes");
    let is_full = rows.len() >= limit as usize;
    let (entries, _) = rows.split_at(rows.len().min(limit as usize));
    check_closed(rt, seated, entries, is_full);
}

// Six turns with three passes.
const SIX_TURNS: &[Row] = &[
    (0, Action::Join(Channel::Shell), Outcome::Joined(1, 1)),
    (1, Action::Join(Channel::Iopub), Outcome::Joined(2, 1)),
    (2, Action::Slice, Outcome::Idle),
    (1, Action::Subscribe(2), Outcome::Subscribed),
    (0, Action::Ask(1, Question::KernelInfo), Outcome::Arrived),
    (
        1,
        Action::Fetch(2, 1),
        Outcome::Fetched(3, [1, 2, 4, 0, 0, 0], 0, 5, false),
    ),
];

#[test]
fn six_turns(rt: HostRuntime) {
    run_rows(&rt, rt.alloc(), MOST_ENTRIES, SIX_TURNS);
}

// A cell from its request to its end, and a shutdown, with the numbers of all posts.
const SESSION: &[Row] = &[
    (0, Action::Join(Channel::Shell), Outcome::Joined(1, 1)),
    (1, Action::Join(Channel::Iopub), Outcome::Joined(2, 1)),
    (1, Action::Subscribe(2), Outcome::Subscribed),
    (0, Action::Ask(1, Question::KernelInfo), Outcome::Arrived),
    (
        1,
        Action::Fetch(2, 1),
        Outcome::Fetched(3, [1, 2, 4, 0, 0, 0], 0, 5, false),
    ),
    (
        0,
        Action::Fetch(1, 1),
        Outcome::Fetched(1, [3, 0, 0, 0, 0, 0], 0, 5, false),
    ),
    (
        0,
        Action::Ask(1, Question::Execute("HLT\nEND 0")),
        Outcome::Arrived,
    ),
    (
        1,
        Action::Fetch(2, 5),
        Outcome::Fetched(0, [0, 0, 0, 0, 0, 0], 0, 5, false),
    ),
    (2, Action::Slice, Outcome::More),
    (
        1,
        Action::Fetch(2, 5),
        Outcome::Fetched(2, [5, 6, 0, 0, 0, 0], 0, 7, false),
    ),
    (2, Action::Slice, Outcome::More),
    (
        1,
        Action::Fetch(2, 7),
        Outcome::Fetched(0, [0, 0, 0, 0, 0, 0], 0, 7, false),
    ),
    (2, Action::Slice, Outcome::More),
    (
        1,
        Action::Fetch(2, 7),
        Outcome::Fetched(1, [8, 0, 0, 0, 0, 0], 0, 9, false),
    ),
    (
        0,
        Action::Fetch(1, 5),
        Outcome::Fetched(1, [7, 0, 0, 0, 0, 0], 0, 9, false),
    ),
    (2, Action::Slice, Outcome::Idle),
    (0, Action::Ask(1, Question::Shutdown), Outcome::Arrived),
    (2, Action::Slice, Outcome::Ended),
    (
        1,
        Action::Fetch(2, 9),
        Outcome::Fetched(2, [9, 11, 0, 0, 0, 0], 0, 12, true),
    ),
    (
        0,
        Action::Fetch(1, 9),
        Outcome::Fetched(1, [10, 0, 0, 0, 0, 0], 0, 12, true),
    ),
];

#[test]
fn a_session(rt: HostRuntime) {
    run_rows(&rt, rt.alloc(), MOST_ENTRIES, SESSION);
}

// The outcome of a fetch, and whether its post 5 shows the switches as 05AH.
fn outcome_with_switches(answer: Result<Reply, KernelFault>) -> (Outcome, bool) {
    let seen = (outcome_of(&answer), shows_switches(&answer));
    drop(answer);
    seen
}

fn shows_switches(answer: &Result<Reply, KernelFault>) -> bool {
    match answer {
        Ok(Reply::Fetched { posts, .. }) => posts.as_slice().iter().any(|post| is_shown(post)),
        _ => false,
    }
}

fn is_shown(post: &Post) -> bool {
    match &post.letter.content {
        Content::DebugReply(response) => post.number == 5 && has_switches(&response.outcome),
        _ => false,
    }
}

fn has_switches(outcome: &DebugOutcome) -> bool {
    match outcome {
        DebugOutcome::Success(Body::Variables(variables)) => variables.as_slice().iter().any(|v| v
            .name
            .as_str()
            == "switches"
            && v.value.as_str() == "05AH"),
        _ => false,
    }
}

fn fetch_seen<R: Wait + Abort>(
    rt: &R,
    alloc: Global,
    desk: &Desk,
    pass: &mut Pass,
) -> (Outcome, bool)
    requires { pass.old.turnstile ≡ desk.now }
    ensures { pass.new.turnstile ≡ desk.now }
{
    let call = call_of(alloc, Action::Fetch(1, 1), 3).expect(rt, "memory for a call");
    let answer = desk.turn(rt, pass, call).expect(rt, "a turn");
    outcome_with_switches(answer)
}

// Expects a seat to see the switches as another has set them.
fn expect_switches<R: Wait + Abort>(
    rt: &R,
    alloc: Global,
    desk: &Desk,
    passes: &mut [Pass],
    rows: &[Row; 4],
)
    requires { All (λ p. p.turnstile ≡ desk.now) passes.old }
    ensures { All (λ p. p.turnstile ≡ desk.now) passes.new }
{
    make_rows(rt, alloc, desk, passes, &rows[..3]);
    let seat = rows[3].0 as usize;
    assert!(rt; seat < passes.len());
    let seen = fetch_seen(rt, alloc, desk, &mut passes[seat]);
    assert!(rt; seen == (rows[3].2, true));
}

// What a desk returns if it doesn't close: itself, and the passes that it was given.
fn fail_to_close<R: Abort>(rt: &R, desk: Desk, passes: Vec<Pass>) -> (Desk, Vec<Pass>)
    requires { All (λ p. p.turnstile ≡ desk) passes.items }
    ensures desk { result.0 ≡ desk }
    ensures passes { result.1 ≡ passes }
{
    match desk.close(passes) {
        Ok(_) => panic!(rt; "closed without a pass"),
        Err(CloseFault::MissingPass { turnstile, passes }) => (turnstile, passes),
    }
}

// A desk doesn't close without a pass.
fn close_late<R: Abort>(rt: &R, desk: Desk, mut passes: Vec<Pass>) -> Seated
    requires { All (λ p. p.turnstile ≡ desk) passes.items }
{
    let last = passes.pop().expect(rt, "a pass");
    let (desk, mut passes) = fail_to_close(rt, desk, passes);
    assert!(rt; passes.len() == 1);
    passes.push(last).expect(rt, "memory for a pass");
    close_desk(desk, passes).expect(rt, "all passes")
}

const SWITCHES: &[Row; 4] = &[
    (0, Action::Join(Channel::Control), Outcome::Joined(1, 1)),
    (
        0,
        Action::Ask(1, Question::Switches(0x5A)),
        Outcome::Arrived,
    ),
    (1, Action::Ask(1, Question::Variables(3)), Outcome::Arrived),
    (
        1,
        Action::Fetch(1, 1),
        Outcome::Fetched(2, [2, 5, 0, 0, 0, 0], 0, 7, false),
    ),
];

fn run_switches<R: Wait + Abort>(rt: &R, alloc: Global) {
    let (desk, mut passes) = open_desk(alloc, MOST_ENTRIES, 2).expect(rt, "a desk");
    expect_switches(rt, alloc, &desk, passes.as_mut_slice(), SWITCHES);
    let seated = close_late(rt, desk, passes);
    check_closed(rt, seated, SWITCHES, false);
}

#[test]
fn two_seats(rt: HostRuntime) {
    run_switches(&rt, rt.alloc());
}
