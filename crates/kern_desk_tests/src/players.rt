//! Passes that make calls one after the other, following a script.
ghost use Rattle.std.specs.Prelude.{◌≡◌};

use crate::outcomes::Outcome;
use crate::turns::{TimedAction, Turn, make};
use jup_wire::channel::Channel;
use kern_desk::seated::{Desk, Pass};
use kern_test_kit::actions::{Action, Question};
use std::alloc::Global;
use std::process::Abort;
use std::sync::Wait;

/// A pass, its connection once it has joined, the number from which it fetches next, and its turns so far.
/// The moment of a call is the number of turns before it.
#[derive(Drop)]
pub struct Player {
    pub pass: Pass,
    connection: u32,
    from: u64,
    pub turns: Vec<Turn>,
}

/// Which calls a player makes.
#[derive(Clone, Copy)]
pub enum Script {
    /// It joins on shell, then alternately sends a request and fetches.
    Asks,
    /// It joins on iopub, subscribes, then fetches.
    Listens,
    /// It fetches.
    Fetches,
    /// It makes slices.
    Runs,
    /// It sends 40 requests and an interrupt, then fetches.
    Interrupts,
}

/// A script, and how many of its calls the player makes.
pub type Part = (Script, u32);

impl Script {
    fn action(self, turn: u32, connection: u32, from: u64) -> Action {
        match self {
            Script::Asks => ask(turn, connection, from),
            Script::Listens => listen(turn, connection, from),
            Script::Fetches => Action::Fetch(connection, from),
            Script::Runs => Action::Slice,
            Script::Interrupts => interrupt(turn, connection, from),
        }
    }
}

fn ask(turn: u32, connection: u32, from: u64) -> Action {
    if turn == 0 {
        return Action::Join(Channel::Shell);
    }
    if turn % 2 == 1 {
        return Action::Ask(connection, Question::KernelInfo);
    }
    Action::Fetch(connection, from)
}

fn listen(turn: u32, connection: u32, from: u64) -> Action {
    match turn {
        0 => Action::Join(Channel::Iopub),
        1 => Action::Subscribe(connection),
        _ => Action::Fetch(connection, from),
    }
}

fn interrupt(turn: u32, connection: u32, from: u64) -> Action {
    match turn {
        0..40 => Action::Ask(connection, Question::KernelInfo),
        40 => Action::Ask(connection, Question::Interrupt),
        _ => Action::Fetch(connection, from),
    }
}

// The connection of a player after a call, given the one before it.
fn connection_after(outcome: Outcome, connection: u32) -> u32 {
    match outcome {
        Outcome::Joined(joined, _) => joined,
        _ => connection,
    }
}

// From where a player fetches next after a call, given the number before it.
fn next_after(outcome: Outcome, from: u64) -> u64 {
    match outcome {
        Outcome::Joined(_, next) | Outcome::Fetched(_, _, _, next, _) => next,
        _ => from,
    }
}

impl Player {
    /// A player that has made no call yet.
    pub fn new(alloc: Global, pass: Pass) -> Player
        ensures { result.pass ≡ pass }
    {
        Player {
            pass,
            connection: 0,
            from: 1,
            turns: Vec::new(alloc),
        }
    }

    fn note(&mut self, outcome: Outcome)
        ensures { self.new.pass ≡ self.old.pass }
    {
        self.connection = connection_after(outcome, self.connection);
        self.from = next_after(outcome, self.from);
    }

    /// Makes a call.
    pub fn make<R: Wait + Abort>(&mut self, rt: &R, alloc: Global, desk: &Desk, action: Action)
        requires { self.old.pass.turnstile ≡ desk.now }
        ensures { self.new.pass.turnstile ≡ desk.now }
    {
        let call = TimedAction {
            action,
            unix_seconds: self.turns.len() as u64,
        };
        let outcome = make(rt, alloc, desk, &mut self.pass, call);
        self.note(outcome);
        let turn = Turn { call, outcome };
        self.turns.push(turn).expect(rt, "memory for a turn");
    }

    /// Makes the calls of a part.
    pub fn play<R: Wait + Abort>(&mut self, rt: &R, alloc: Global, desk: &Desk, part: Part)
        requires { self.old.pass.turnstile ≡ desk.now }
        ensures { self.new.pass.turnstile ≡ desk.now }
    {
        let (script, turns) = part;
        for turn in 0..turns {
            let action = script.action(turn, self.connection, self.from);
            self.make(rt, alloc, desk, action);
        }
    }
}
