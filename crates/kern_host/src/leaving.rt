//! The Leave of a connection.
ghost use Rattle.std.specs.Prelude.{◌≡◌};
ghost use Rattle.kern_host.specs.Leaves.{HasLeft, TriedToLeave, left_by};

use crate::end::LeaveFault;
use kern_core::call::{Call, Reply};
use kern_core::fault::KernelFault;
use kern_desk::seated::{Desk, Pass};
use std::rt::Clock;
use std::sync::Wait;
use std::thread;
use std::time::Duration;

// The time from a Leave that ran out of memory to the next try.
const RETRY_MILLIS: u64 = 10;

// Whether the connection has left, or why it can't; None if memory ran out.
fn left_by(answer: &Result<Reply, KernelFault>) -> Option<Result<(), LeaveFault>>
    ensures { result ≡ left_by answer.now }
{
    match answer {
        Err(KernelFault::OutOfMemory) => None,
        Err(KernelFault::JournalFull) => Some(Err(LeaveFault::JournalFull)),
        Err(KernelFault::Full | KernelFault::NoConnection | KernelFault::Lagged { .. }) | Ok(_) => {
            Some(Ok(()))
        }
    }
}

// Tries to leave; None if there is no memory for the entry.
#[tactic(auto, using(crate::proofs::LeaveLemmas::tried, crate::proofs::LeaveLemmas::left_without_tickets))]
fn try_to_leave<R: Wait>(
    rt: &R,
    desk: &Desk,
    pass: &mut Pass,
    connection: u32,
) -> Option<Result<(), LeaveFault>>
    requires { pass.old.turnstile ≡ desk.now }
    ensures same { (pass.new.turnstile ≡ desk.now) × (pass.new.seat ≡ pass.old.seat) }
    ensures tried { TriedToLeave connection pass.old pass.new result }
{
    let Ok(answer) = desk.turn(rt, pass, Call::Leave { connection }) else {
        return Some(Err(LeaveFault::OutOfTickets));
    };
    let left = left_by(&answer);
    drop(answer);
    left
}

/// Leaves, unless the kernel takes no more calls. While there is no memory for the entry it tries again, so
/// that the connection's place and identity become free.
#[tactic(auto, using(crate::proofs::LeaveLemmas::tries))]
pub(crate) fn leave<R: Wait + Clock>(
    rt: &R,
    desk: &Desk,
    pass: &mut Pass,
    connection: u32,
) -> Result<(), LeaveFault>
    requires { pass.old.turnstile ≡ desk.now }
    ensures same { (pass.new.turnstile ≡ desk.now) × (pass.new.seat ≡ pass.old.seat) }
    ensures left { HasLeft connection pass.old pass.new result }
{
    for _ in rt.forever() {
        match try_to_leave(rt, desk, pass, connection) {
            Some(left) => return left,
            None => thread::sleep(rt, Duration::from_millis(RETRY_MILLIS)),
        }
    }
    unreachable!()
}
