//! The table behind a turnstile, its rule, and what each step on it shows.
//!
//! The rule has two parts, tickets and slot (`specs/Tickets.antt`), and seen and own calls
//! (`specs/Seen.antt`). It holds between any two of the steps: read the tickets, draw one, look at
//! the ticket that is served, take the value out, put it back, pass the turn on, split a pass off,
//! join a pass. The two exchanges of the slot change no view.
use crate::journaled::Journaled;
use crate::view::View;
use atomic_table::{Join, Play, Seat, Shared, Split, TableRule};
use std::marker::PhantomData;
use std::snapshot::Snapshot;

/// The word that counts the tickets that are drawn.
pub const TICKETS: usize = 0;

/// The word that holds the ticket that is served.
pub const SERVING: usize = 1;

/// The slot that holds the value.
pub const VALUE: usize = 0;

pub type Token<J> = Seat<Option<J>, View<<J as Journaled>::Call>>;

pub type TurnTable<J> = Shared<Option<J>, View<<J as Journaled>::Call>, Opening<J>, Turns<J>>;

pub struct Turns<J> {
    of: PhantomData<J>,
}

/// The constants of a table: the value that it was opened over, and the number of seats.
pub struct Opening<J> {
    pub over: Snapshot<J>,
    pub seats: u32,
}

impl<J> Drop for Opening<J> {
    fn drop(self) {
        let Self { over: _, seats: _ } = self;
    }
}

impl<J: Journaled> TableRule<Option<J>, View<J::Call>, Opening<J>> for Turns<J> {
    ghost use Rattle.lab_turn.specs.Turns.{Ruled, first_view};

    ghost holds = { λ key. Ruled J.entries J.limit key.seats (J.limit key.over.value) };

    ghost first = { λ key. first_view key.seats (J.limit key.over.value) };
}

pub struct ReadTickets;

impl<J: Journaled> Play<Option<J>, View<J::Call>> for ReadTickets {
    ghost use Rattle.lab_turn.specs.Turns.{read_tickets};

    ghost then = { read_tickets J.entries J.limit };
}

pub struct Draw;

impl<J: Journaled> Play<Option<J>, View<J::Call>> for Draw {
    ghost use Rattle.lab_turn.specs.Turns.{drew};

    ghost then = { drew J.entries J.limit };
}

pub struct Look;

impl<J: Journaled> Play<Option<J>, View<J::Call>> for Look {
    ghost use Rattle.lab_turn.specs.Turns.{looked};

    ghost then = { looked J.entries J.limit };
}

pub struct PassOn;

impl<J: Journaled> Play<Option<J>, View<J::Call>> for PassOn {
    ghost use Rattle.lab_turn.specs.Turns.{passed_on};

    ghost then = { passed_on J.entries J.limit };
}

pub struct OnePass;

impl<C> Split<View<C>> for OnePass {
    ghost use Rattle.lab_turn.specs.Turns.{maker_after, new_pass};

    ghost left = { maker_after };

    ghost right = { new_pass };
}

impl<C> Join<View<C>> for OnePass {
    ghost use Rattle.lab_turn.specs.Turns.{taker};
    ghost use Rattle.lab_turn.specs.Seen.{spent_view};

    ghost both = { taker };

    ghost spent = { spent_view };
}
