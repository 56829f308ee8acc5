//! The turnstile: opened over a value, used by its passes, and closed with all of them.
ghost use Rattle.std.specs.Prelude.{◌≡◌, ◌<◌, ◌≤◌, ◌+◌, [], ◌∷◌, All, length, vec_capacity, IfOk, IfErr};
ghost use Rattle.std.specs.Prelude.{IsSome, Some};
ghost use Rattle.lab_turn.specs.History.{TurnstileState, FreshFrom};
ghost use Rattle.lab_turn.specs.Turns.{ReclaimsPasses, IsIdle, maker_at};
ghost use Rattle.lab_turn.specs.Uses.{OpensTurnstile, TakesTurn, ClosesTurnstile};

use crate::fault::TurnFault;
use crate::journaled::Journaled;
use crate::pass::Pass;
use crate::queue::take_turn;
use crate::rule::{OnePass, Opening, Token, TurnTable, Turns, VALUE};
use crate::view::View;
use atomic_table::{Refused, Table};
use std::alloc::Global;
use std::fmt;
use std::marker::Model;
use std::snapshot::Snapshot;
use std::sync::{Mutex, Wait};
use thiserror::Error;

/// Why a turnstile wasn't opened.
#[derive(Debug, Drop, Error)]
pub enum OpenFault<J> {
    /// Returns the value.
    #[error("out of memory")]
    OutOfMemory(J),
}

/// Why a turnstile wasn't closed.
#[derive(Debug, Drop, Error)]
pub enum CloseFault<J: Journaled> {
    /// Returns the turnstile and its passes.
    #[error("a pass of the turnstile is missing")]
    MissingPass {
        turnstile: Turnstile<J>,
        passes: Vec<Pass<J>>,
    },
}

/// A journaled value on which threads make calls in turns, each thread with a pass.
///
/// Contracts see which turnstile it is, its number of seats, and the limit of its value's journal.
#[derive(Drop)]
pub struct Turnstile<J: Journaled> {
    table: Table<Option<J>, View<J::Call>, Opening<J>, Turns<J>, Global>,
    seats: u32,
    // Tickets are served in order, so a waiting thread that isn't running would hold up all that spin behind
    // it. With this lock, those that wait for their turn sleep.
    door: Mutex<()>,
}

impl<J: Journaled> Model for Turnstile<J> {
    ghost use Rattle.std.specs.Prelude.{◌≡◌, ◌<◌};
    ghost use Rattle.lab_turn.specs.History.{TurnstileState};

    ghost Value = { TurnstileState };

    ghost view = { λ t. record {
      table = t.table.shared.table_id;
      seats = t.seats;
      limit = J.limit t.table.shared.key.over.value;
    } };

    ghost invariant = { λ t. (t.table.shared.table_id.words ≡ 2)
        × (t.table.shared.table_id.slots ≡ 1)
        × (t.seats ≡ t.table.shared.key.seats)
        × (0 < t.seats) };
}

impl<J: Journaled> fmt::Debug for Turnstile<J> {
    fn fmt<W: fmt::Write>(&self, f: &mut fmt::Formatter<W>) -> fmt::Result {
        f.debug_struct("Turnstile")
            .field("seats", &self.seats)
            .finish()
    }
}

type NewTable<J> = (
    Table<Option<J>, View<<J as Journaled>::Call>, Opening<J>, Turns<J>, Global>,
    Token<J>,
);

// The slots of the table, of which the value has the only one. Returns the value if memory runs out.
fn slots_over<J>(alloc: Global, value: J) -> Result<Vec<Option<J>>, J>
    ensures ok { IfOk result (λ slots. slots.items ≡ Some value ∷ []) }
    ensures err { IfErr result (λ v. v ≡ value) }
{
    let Ok(mut slots) = Vec::with_capacity(alloc, 1) else {
        return Err(value);
    };
    let pushed = slots.push(Some(value));
    let Ok(()) = pushed else { unreachable!() };
    Ok(slots)
}

// The value in the only slot.
fn value_in<J>(mut slots: Vec<Option<J>>) -> J
    requires { (length slots.items ≡ 1) × All IsSome slots.items }
    ensures { slots.items ≡ Some result ∷ [] }
{
    let Some(first) = slots.pop() else {
        unreachable!()
    };
    slots.destroy_empty();
    let Some(value) = first else { unreachable!() };
    value
}

// The table over the value, and the token of its first seat.
fn table_over<J: Journaled>(alloc: Global, value: J, seats: u32) -> Result<NewTable<J>, J>
    requires seats { 0 < seats }
    requires fresh { J.entries value ≡ [] }
    ensures shape { IfOk result (λ t.
        (t.0.shared.table_id.words ≡ 2) × (t.0.shared.table_id.slots ≡ 1)) }
    ensures key { IfOk result (λ t.
        (t.0.shared.key.seats ≡ seats) × (t.0.shared.key.over.value ≡ value)) }
    ensures table { IfOk result (λ t. t.1.table_id ≡ t.0.shared.table_id) }
    ensures token { IfOk result (λ t. t.1.me ≡ (maker_at seats (J.limit value) 1, [])) }
    ensures err { IfErr result (λ v. v ≡ value) }
{
    let key = Opening {
        over: Snapshot::of(&value),
        seats,
    };
    let slots = slots_over(alloc, value)?;
    match Table::new(alloc, &[0, 0], slots, &key) {
        Ok(made) => Ok(made),
        Err(Refused { slots }) => Err(value_in(slots)),
    }
}

// Makes the passes of all seats from 1 on.
fn issue_passes<J: Journaled>(
    table: &TurnTable<J>,
    token: &mut Token<J>,
    seats: u32,
    passes: &mut Vec<Pass<J>>,
)
    requires table { (token.old.table_id ≡ table.now.table_id) × (table.now.table_id.words ≡ 2) }
    requires seats { (0 < seats) × (seats ≡ table.now.key.seats) }
    requires maker { token.old.me ≡ (maker_at seats (J.limit table.now.key.over.value) 1, []) }
    requires room { (passes.old.items ≡ []) × (seats ≤ vec_capacity passes.old) }
    ensures same { token.new.table_id ≡ token.old.table_id }
    ensures token { token.new.me ≡ (maker_at seats (J.limit table.now.key.over.value) seats, []) }
    ensures passes { let turnstile : TurnstileState = record {
      table = table.now.table_id;
      seats = seats;
      limit = J.limit table.now.key.over.value;
    } in
        FreshFrom 1 turnstile passes.new.items }
    ensures count { (length passes.new.items + 1 ≡ seats) × (seats ≤ vec_capacity passes.new) }
{
    for seat in 1..seats {
        let other = table.split_seat::<OnePass>(token);
        let Ok(()) = passes.push(Pass { seat, token: other }) else {
            unreachable!()
        };
    }
}

// Joins the passes to one token.
fn reclaim_passes<J: Journaled>(
    table: &TurnTable<J>,
    token: &mut Token<J>,
    mut passes: Vec<Pass<J>>,
)
    requires table { (token.old.table_id ≡ table.now.table_id) × (table.now.table_id.words ≡ 2) }
    requires idle { IsIdle token.old.me }
    requires passes { All (λ p. p.turnstile.table ≡ table.now.table_id) passes.items }
    ensures token { (token.new.table_id ≡ token.old.table_id) × (token.new.me.1 ≡ []) }
    ensures all { ReclaimsPasses passes.items [] token.old.me.0 token.new.me.0 }
{
    while let Some(pass) = passes.pop() {
        table.join_seat::<OnePass>(token, pass.into_token());
    }
    passes.destroy_empty();
}

impl<J: Journaled> Turnstile<J> {
    /// Opens a turnstile over a value with no entries, with 1 to 1,024 seats. The pass at index k has seat k,
    /// and neither it nor any other has made a call.
    pub fn open(
        alloc: Global,
        value: J,
        seats: u32,
    ) -> Result<(Turnstile<J>, Vec<Pass<J>>), OpenFault<J>>
        requires seats { (0 < seats) × (seats ≤ 1024) }
        requires fresh { J.entries value ≡ [] }
        ensures { OpensTurnstile J.limit value seats result }
    {
        let Ok(mut passes) = Vec::with_capacity(alloc, seats as usize) else {
            return Err(OpenFault::OutOfMemory(value));
        };
        match table_over(alloc, value, seats) {
            Ok((table, mut token)) => {
                issue_passes(&table.shared, &mut token, seats, &mut passes);
                let Ok(()) = passes.insert(0, Pass { seat: 0, token }) else {
                    unreachable!()
                };
                let door = Mutex::new(());
                Ok((Turnstile { table, seats, door }, passes))
            }
            Err(value) => Err(OpenFault::OutOfMemory(value)),
        }
    }

    /// Waits for its turn, then makes one call on the value.
    ///
    /// The reply is the value's own: if the value refuses the call, as when memory runs out, that is an `Ok`
    /// too, and adds no entry. `OutOfTickets` is returned only once 2^64 - 1 tickets are drawn; then no call
    /// is made.
    pub fn turn<R: Wait>(
        &self,
        rt: &R,
        pass: &mut Pass<J>,
        call: J::Call,
    ) -> Result<J::Reply, TurnFault>
        requires { pass.old.turnstile ≡ self.now }
        ensures { TakesTurn J.answer J.is_entry J.is_full self.now pass.old call result pass.new }
    {
        let inside = self.door.lock(rt);
        take_turn(
            rt,
            &inside,
            &self.table.shared,
            pass.seat,
            &mut pass.token,
            call,
        )
    }

    /// Closes the turnstile with all its passes, in any order, and returns the value. It allocates nothing.
    /// If a pass is missing, the turnstile stays open and is returned with the passes.
    pub fn close(self, mut passes: Vec<Pass<J>>) -> Result<J, CloseFault<J>>
        requires { All (λ p. p.turnstile ≡ self) passes.items }
        ensures { ClosesTurnstile J.entries J.limit self passes result }
    {
        if passes.len() != self.seats as usize {
            return Err(CloseFault::MissingPass {
                turnstile: self,
                passes,
            });
        }
        let Some(last) = passes.pop() else {
            unreachable!()
        };
        let mut token = last.into_token();
        let Turnstile {
            table,
            seats: _,
            door: _,
        } = self;
        reclaim_passes(&table.shared, &mut token, passes);
        let mut closed = table.close_with(token);
        let taken = closed.take(VALUE);
        closed.free();
        let Some(value) = taken else { unreachable!() };
        Ok(value)
    }
}
