//! Giving guests the passes of their seats, and taking them back.
ghost use Rattle.std.specs.Prelude.{◌≡◌, ◌+◌, ◌*◌, ◌<◌, ◌≤◌, ◌++◌, All, length, vec_capacity};
ghost use Rattle.lab_turn.specs.History.{FreshFrom, fresh_pass};
ghost use Rattle.kern_host.specs.Guests.{AreOf, passes_in, without_passes};
ghost use Rattle.kern_host.specs.Hosting.{AtEach, HasBoth, seated_at};

use crate::guest::{Guest, Passes};
use base_streams::ports::{Inlet, Outlet};
use kern_desk::seated::{Desk, Pass};
use kern_net::gate::{ReaderGate, WriterGate};

// Takes the pass of the last seat.
pub(crate) fn take_last(desk: &Desk, passes: &mut Vec<Pass>) -> Pass
    requires fresh { FreshFrom 0 desk.now passes.old.items }
    requires some { 0 < length passes.old.items }
    ensures fresh { FreshFrom 0 desk.now passes.new.items }
    ensures count { length passes.new.items + 1 ≡ length passes.old.items }
    ensures pass { result ≡ fresh_pass desk.now (length passes.new.items) }
{
    let Some(pass) = passes.pop() else {
        unreachable!()
    };
    pass
}

// Gives each guest the passes of its two seats.
pub(crate) fn seat_all<
    I: Inlet + Drop,
    W: Outlet + Drop,
    G: ReaderGate + Drop,
    H: WriterGate + Drop,
>(desk: &Desk, passes: &mut Vec<Pass>, guests: &mut [Guest<I, W, G, H>])
    requires fresh { FreshFrom 0 desk.now passes.old.items }
    requires count { length passes.old.items ≡ 2 * length guests.old }
    ensures { AtEach (λ k a b. b ≡ seated_at desk.now k a) guests.old guests.new }
{
    let count = guests.len();
    for done in 0..count {
        let writing = take_last(desk, passes);
        let reading = take_last(desk, passes);
        guests[count - 1 - done].sit(Passes { reading, writing });
    }
}

// Takes a guest's passes back.
fn give_back<I: Inlet + Drop, W: Outlet + Drop, G: ReaderGate + Drop, H: WriterGate + Drop>(
    desk: &Desk,
    guest: &mut Guest<I, W, G, H>,
    back: &mut Vec<Pass>,
)
    requires own { AreOf desk.now guest.old.passes }
    requires room { length back.old.items + 2 ≤ vec_capacity back.old }
    ensures guest { guest.new ≡ without_passes guest.old }
    ensures back { back.new.items ≡ back.old.items ++ passes_in guest.old.passes }
    ensures room { vec_capacity back.new ≡ vec_capacity back.old }
{
    let Some(passes) = guest.rise() else {
        unreachable!()
    };
    let Passes { reading, writing } = passes;
    back.push_reserved(reading);
    back.push_reserved(writing);
}

// Takes all guests' passes back.
pub(crate) fn take_all<
    I: Inlet + Drop,
    W: Outlet + Drop,
    G: ReaderGate + Drop,
    H: WriterGate + Drop,
>(desk: &Desk, guests: &mut [Guest<I, W, G, H>], back: &mut Vec<Pass>)
    requires own { All (λ g. AreOf desk.now g.passes) guests.old }
    requires empty { length back.old.items ≡ 0 }
    requires room { 2 * length guests.old ≤ vec_capacity back.old }
    ensures guests { AtEach (λ k a b. (b ≡ without_passes a)
        × HasBoth back.new.items a.passes) guests.old guests.new }
    ensures own { All (λ p. p.turnstile ≡ desk.now) back.new.items }
    ensures count { length back.new.items ≡ 2 * length guests.old }
    ensures room { vec_capacity back.new ≡ vec_capacity back.old }
{
    for place in 0..guests.len() {
        give_back(desk, &mut guests[place], back);
    }
}
