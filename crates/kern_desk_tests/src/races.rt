//! Calls of several threads at once.
ghost use Rattle.std.specs.Prelude.{◌≡◌, ◌<◌, All, IfSome};

use crate::checks::expect_at;
use crate::journals::{Entry, merge, replay};
use crate::outcomes::Outcome;
use crate::players::{Part, Player, Script};
use crate::turns::Turn;
use jup_wire::channel::Channel;
use kern_desk::desks::{MOST_ENTRIES, close_desk, open_desk};
use kern_desk::seated::{Desk, Pass, Seated};
use kern_test_kit::actions::{Action, Question};
use std::alloc::Global;
use std::process::Abort;
use std::sync::Wait;
use std::thread;
use std::thread::Threads;

// A game of two or three players, by seat: calls that are made one after the other at first, the parts that
// the players then play at once, each in a thread of its own, and those that they play at last, one after
// the other.
#[derive(Clone, Copy)]
struct Game {
    seats: u32,
    first: &'static [(usize, Action)],
    race: [Part; 3],
    last: [Part; 3],
}

// A part for each player, by seat, and in how many threads they are played.
#[derive(Clone, Copy)]
struct Round {
    threads: usize,
    parts: [Part; 3],
}

// Plays a round. The first player is that of the last seat.
fn play_round<R: Threads + Wait + Abort + Sync>(
    rt: &R,
    alloc: Global,
    desk: &Desk,
    players: &mut [Player],
    round: Round,
)
    requires own { All (λ p. p.pass.turnstile ≡ desk.now) players.old }
    requires threads { 0 < round.threads }
    ensures { All (λ p. p.pass.turnstile ≡ desk.now) players.new }
{
    let Round { threads, parts } = round;
    let last = players.len().saturating_sub(1);
    thread::for_each_mut(
        rt,
        players,
        threads,
        &|place: usize, player: &mut Player|
            requires { player.now.pass.turnstile ≡ desk.now }
            ensures { player.exit.now.pass.turnstile ≡ desk.entry.now }
        { player.play(rt, alloc, desk, part_of(parts, last.saturating_sub(place))) },
    );
}

fn part_of(parts: [Part; 3], seat: usize) -> Part {
    match parts.get(seat) {
        Some(part) => *part,
        None => (Script::Fetches, 0),
    }
}

// Makes calls one after the other. The first player is that of the last seat.
fn make_calls<R: Wait + Abort>(
    rt: &R,
    alloc: Global,
    desk: &Desk,
    players: &mut [Player],
    calls: &[(usize, Action)],
)
    requires { All (λ p. p.pass.turnstile ≡ desk.now) players.old }
    ensures { All (λ p. p.pass.turnstile ≡ desk.now) players.new }
{
    for (seat, action) in calls {
        assert!(rt; *seat < players.len());
        let place = players.len() - 1 - *seat;
        players[place].make(rt, alloc, desk, *action);
    }
}

fn play_game<R: Threads + Wait + Abort + Sync>(
    rt: &R,
    alloc: Global,
    desk: &Desk,
    players: &mut [Player],
    game: &Game,
)
    requires { All (λ p. p.pass.turnstile ≡ desk.now) players.old }
    ensures { All (λ p. p.pass.turnstile ≡ desk.now) players.new }
{
    make_calls(rt, alloc, desk, players, game.first);
    let race = Round {
        threads: 3,
        parts: game.race,
    };
    play_round(rt, alloc, desk, players, race);
    let last = Round {
        threads: 1,
        parts: game.last,
    };
    play_round(rt, alloc, desk, players, last);
}

// The players with these passes, that of the last seat first: so neither they nor their passes, when these
// are taken back, have to be moved for one another.
fn players_of<R: Abort>(rt: &R, alloc: Global, desk: &Desk, mut passes: Vec<Pass>) -> Vec<Player>
    requires { All (λ p. p.turnstile ≡ desk.now) passes.items }
    ensures { All (λ p. p.pass.turnstile ≡ desk.now) result.items }
{
    let mut players = Vec::new(alloc);
    for _ in 0..passes.len() {
        let pass = passes.pop().expect(rt, "a pass");
        players
            .push(Player::new(alloc, pass))
            .expect(rt, "memory for a player");
    }
    players
}

// The last of the players.
fn take_player(desk: &Desk, players: &mut Vec<Player>) -> Option<Player>
    requires { All (λ p. p.pass.turnstile ≡ desk.now) players.old.items }
    ensures own { IfSome result (λ player. player.pass.turnstile ≡ desk.now) }
    ensures others { All (λ p. p.pass.turnstile ≡ desk.now) players.new.items }
{
    players.pop()
}

// The passes of the players. Their turns go into `made`, by seat.
fn passes_of<R: Abort>(
    rt: &R,
    alloc: Global,
    desk: &Desk,
    mut players: Vec<Player>,
    made: &mut Vec<Vec<Turn>>,
) -> Vec<Pass>
    requires { All (λ p. p.pass.turnstile ≡ desk.now) players.items }
    ensures { All (λ p. p.turnstile ≡ desk.now) result.items }
{
    let mut passes = Vec::new(alloc);
    for _ in 0..players.len() {
        let player = take_player(desk, &mut players).expect(rt, "a player");
        let Player { pass, turns, .. } = player;
        passes.push(pass).expect(rt, "memory for a pass");
        made.push(turns).expect(rt, "memory for a player's calls");
    }
    passes
}

// Plays a game at a new desk, and closes it. The players' turns go into `made`, by seat.
fn play<R: Threads + Wait + Abort + Sync>(
    rt: &R,
    alloc: Global,
    game: &Game,
    made: &mut Vec<Vec<Turn>>,
) -> Seated {
    let seats = game.seats;
    assert!(rt; 0 < seats && seats <= 3);
    let (desk, passes) = open_desk(alloc, MOST_ENTRIES, seats).expect(rt, "a desk");
    let mut players = players_of(rt, alloc, &desk, passes);
    play_game(rt, alloc, &desk, players.as_mut_slice(), game);
    let passes = passes_of(rt, alloc, &desk, players, made);
    close_desk(desk, passes).expect(rt, "all passes")
}

// Plays a game, and returns the entries of its journal.
fn entries_of<R: Threads + Wait + Abort + Sync>(rt: &R, alloc: Global, game: &Game) -> Vec<Entry> {
    let mut made = Vec::new(alloc);
    let seated = play(rt, alloc, game, &mut made);
    let entries = merge(rt, alloc, &seated, made.as_slice());
    drop(seated);
    drop(made);
    entries
}

// What the fetches of a seat returned: how many posts, how many of them say that a cell was interrupted,
// and from which number to fetch next.
fn fetches_of(entries: &[Entry], seat: u32) -> (usize, usize, u64) {
    let mut total = (0usize, 0usize, 0);
    for entry in entries {
        if entry.seat == seat {
            total = add_outcome(total, entry.turn.outcome);
        }
    }
    total
}

fn add_outcome(total: (usize, usize, u64), outcome: Outcome) -> (usize, usize, u64) {
    match outcome {
        Outcome::Fetched(count, _, interrupted, next, _) => (
            total.0.saturating_add(count),
            total.1.saturating_add(interrupted),
            next,
        ),
        _ => total,
    }
}

// How many posts a listener gets: the status at its Subscribe, then busy and idle for each request.
fn posts_to_listener(entries: &[Entry]) -> usize {
    let mut posts = 0usize;
    for entry in entries {
        match entry.turn.call.action {
            Action::Subscribe(_) => posts = 1,
            Action::Ask(_, _) if posts > 0 => posts = posts.saturating_add(2),
            _ => {}
        }
    }
    posts
}

// One thread sends 300 requests, each of which is answered by a reply between busy and idle, and fetches
// the replies. The other joins and subscribes at some moment among these, and fetches.
const TWO: &Game = &Game {
    seats: 2,
    first: &[],
    race: [
        (Script::Asks, 601),
        (Script::Listens, 602),
        (Script::Runs, 0),
    ],
    last: [
        (Script::Fetches, 16),
        (Script::Fetches, 16),
        (Script::Runs, 0),
    ],
};

fn check_two<R: Abort>(rt: &R, entries: &[Entry]) {
    expect_at(rt, fetches_of(entries, 0) == (300, 0, 902), "seat", 0);
    let listened = (posts_to_listener(entries), 0, 902);
    expect_at(rt, fetches_of(entries, 1) == listened, "seat", 1);
    expect_at(rt, entries.len() == 1235, "entries", entries.len() as u64);
}

#[test]
fn two_threads(rt: HostRuntime) {
    let entries = entries_of(&rt, rt.alloc(), TWO);
    check_two(&rt, entries.as_slice());
    replay(&rt, rt.alloc(), entries.as_slice());
}

// One thread makes the slices of a cell that doesn't end by itself, one sends 40 requests and interrupts
// it, one listens. The Subscribe makes 1 post, the beginning of the cell 2, the 40 requests 120, the
// interrupt 6: the cell's error, execute_reply and idle, and its own reply, between busy and idle.
const THREE: &Game = &Game {
    seats: 3,
    first: &[
        (1, Action::Join(Channel::Shell)),
        (2, Action::Join(Channel::Iopub)),
        (2, Action::Subscribe(2)),
        (1, Action::Ask(1, Question::Execute("X: JMP X\nEND X"))),
        (0, Action::Slice),
        (0, Action::Slice),
    ],
    race: [
        (Script::Runs, 60),
        (Script::Interrupts, 100),
        (Script::Fetches, 100),
    ],
    last: [
        (Script::Runs, 1),
        (Script::Fetches, 4),
        (Script::Fetches, 4),
    ],
};

// Up to the interrupt each slice leaves more to do; after it there is nothing to do.
fn check_slices<R: Abort>(rt: &R, entries: &[Entry]) {
    let mut wanted = Outcome::More;
    for (place, entry) in entries.iter().enumerate() {
        match entry.turn.call.action {
            Action::Ask(_, Question::Interrupt) => wanted = Outcome::Idle,
            Action::Slice => {
                expect_at(rt, entry.turn.outcome == wanted, "slice", place as u64);
            }
            _ => {}
        }
    }
}

fn check_three<R: Abort>(rt: &R, entries: &[Entry]) {
    expect_at(rt, fetches_of(entries, 1) == (42, 1, 130), "seat", 1);
    expect_at(rt, fetches_of(entries, 2) == (87, 1, 130), "seat", 2);
    expect_at(rt, entries.len() == 275, "entries", entries.len() as u64);
    check_slices(rt, entries);
}

#[test]
fn three_threads(rt: HostRuntime) {
    let entries = entries_of(&rt, rt.alloc(), THREE);
    check_three(&rt, entries.as_slice());
    replay(&rt, rt.alloc(), entries.as_slice());
}
