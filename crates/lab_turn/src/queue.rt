//! The queue of a turnstile: a turn draws a ticket, waits until it is served, and passes the turn on.
ghost use Rattle.std.specs.Prelude.{◌≡◌, [], Some, None, IfSome, IfNone, false};
ghost use Rattle.lab_turn.specs.Turns.{IsIdle, Served, with_ticket, without_tickets};
ghost use Rattle.lab_turn.specs.Uses.{TokenTakesTurn};

use crate::fault::TurnFault;
use crate::journaled::Journaled;
use crate::rule::{Draw, Look, PassOn, ReadTickets, SERVING, TICKETS, Token, TurnTable, VALUE};
use crossbeam_utils::Backoff;
use std::sync::{MutexGuard, Wait};

// Draws a ticket. Returns None if none is left, which the token then shows.
fn draw<J: Journaled, R: Wait>(rt: &R, table: &TurnTable<J>, token: &mut Token<J>) -> Option<u64>
    requires table { (token.old.table_id ≡ table.now.table_id) × (table.now.table_id.words ≡ 2) }
    requires idle { IsIdle token.old.me }
    ensures same { (token.new.table_id ≡ token.old.table_id) × (token.new.id ≡ token.old.id) }
    ensures drew { IfSome result (λ ticket.
        token.new.me ≡ (with_ticket J.entries J.limit token.old.me.0 ticket, [])) }
    ensures out_of_tickets { IfNone result (token.new.me
        ≡ (without_tickets J.entries J.limit token.old.me.0, [])) }
{
    let backoff = Backoff::new();
    for _ in rt.forever() {
        let tickets = table.load::<ReadTickets>(token, TICKETS);
        if tickets == u64::MAX {
            return None;
        }
        let found = table.compare_exchange::<Draw>(token, TICKETS, tickets, tickets + 1);
        if found == tickets {
            return Some(tickets);
        }
        backoff.spin();
    }
    unreachable!()
}

// Waits until the ticket is served. From then on the token owns the table's slot.
fn wait_for<J: Journaled, R: Wait>(rt: &R, table: &TurnTable<J>, token: &mut Token<J>, ticket: u64)
    requires table { (token.old.table_id ≡ table.now.table_id) × (table.now.table_id.words ≡ 2) }
    requires ticket { token.old.me.0.ticket ≡ Some ticket }
    requires waits { (token.old.me.0.found ≡ None) × (token.old.me.0.spent ≡ false)
        × (token.old.me.1 ≡ []) }
    ensures same { (token.new.table_id ≡ token.old.table_id) × (token.new.id ≡ token.old.id) }
    ensures served { Served J.entries J.limit token.old.me.0 token.new.me }
{
    let backoff = Backoff::new();
    for _ in rt.forever() {
        if table.load::<Look>(token, SERVING) == ticket {
            return;
        }
        backoff.snooze();
    }
    unreachable!()
}

// Takes a turn: draws a ticket and waits for it, takes the value out, makes the call, puts the value back and
// passes the turn on. The caller holds the door meanwhile, so that no other thread spins for its ticket.
pub fn take_turn<J: Journaled, R: Wait>(
    rt: &R,
    _inside: &MutexGuard<'_, ()>,
    table: &TurnTable<J>,
    seat: u32,
    token: &mut Token<J>,
    call: J::Call,
) -> Result<J::Reply, TurnFault>
    requires table { (token.old.table_id ≡ table.now.table_id) × (table.now.table_id.words ≡ 2) }
    requires seat { seat ≡ token.old.me.0.seat }
    requires idle { IsIdle token.old.me }
    ensures { TokenTakesTurn J.answer J.is_entry J.is_full seat token.old call result token.new }
{
    let Some(ticket) = draw(rt, table, token) else {
        return Err(TurnFault::OutOfTickets);
    };
    wait_for(rt, table, token, ticket);
    let found = table.exchange(token, VALUE, None);
    let Some(mut value) = found else {
        unreachable!()
    };
    let reply = value.act(seat, call);
    let left = table.exchange(token, VALUE, Some(value));
    let None = left else { unreachable!() };
    table.fetch_add::<PassOn>(token, SERVING, 1);
    Ok(reply)
}
