//! Opening and closing desks, and joining.
ghost use Rattle.std.specs.Prelude.{◌≡◌, ◌<◌, ◌≤◌, All, Ok, Err, IfOk, IfErr};
ghost use Rattle.kern_calls.specs.declared.call.Call.TheVariants.{Join};
ghost use Rattle.kern_calls.specs.declared.call.Reply.TheVariants as reply;
ghost use Rattle.kern_desk.specs.Desks.{IsNewDesk, ClosesDesk};
ghost use Rattle.kern_desk.specs.Joins.{IsJoinAnswer, IsJoined, IsUnjoined};

use crate::seated::{Desk, Pass, Seated};
use base_text::boxed::Boxed;
use base_text::sequence::Bytes;
use jup_wire::channel::Channel;
use kern_core::call::{Call, Reply};
use kern_core::fault::KernelFault;
use kern_core::kernel::Kernel;
use lab_turn::turnstile::Turnstile;
use std::alloc::{AllocError, Global};
use std::sync::Wait;

/// The greatest limit that a journal can have.
pub const MOST_ENTRIES: u32 = 4_194_304;

/// A new connection.
#[derive(Clone, Copy)]
pub struct Joined {
    pub connection: u32,
    /// The number of the next post, from which the connection can fetch.
    pub from: u64,
}

/// A desk over a new kernel whose journal has at most `limit` entries, and one pass for each seat, in the
/// order of the seats.
pub fn open_desk(alloc: Global, limit: u32, seats: u32) -> Result<(Desk, Vec<Pass>), AllocError>
    requires limit { (1 ≤ limit) × (limit ≤ 4194304) }
    requires seats { (0 < seats) × (seats ≤ 1024) }
    ensures { IfOk result (λ opened. IsNewDesk limit seats opened.0 opened.1.items) }
{
    let kernel = Kernel::new(alloc, limit)?;
    match Turnstile::open(alloc, Seated::new(alloc, kernel), seats) {
        Ok(opened) => Ok(opened),
        Err(fault) => {
            drop(fault);
            Err(AllocError)
        }
    }
}

/// Closes a desk, given all its passes, and returns the kernel with the seats of its entries. If a pass is
/// missing, returns None, and the desk and the passes are dropped.
pub fn close_desk(desk: Desk, passes: Vec<Pass>) -> Option<Seated>
    requires { All (λ p. p.turnstile ≡ desk) passes.items }
    ensures { ClosesDesk desk passes.items result }
{
    match desk.close(passes) {
        Ok(seated) => Some(seated),
        Err(fault) => {
            drop(fault);
            None
        }
    }
}

fn joined_by(answer: &Result<Reply, KernelFault>) -> Result<Joined, KernelFault>
    requires { IsJoinAnswer answer.now }
    ensures ok { IfOk result (λ joined. answer.now ≡ Ok (reply.Joined joined.connection joined.from)) }
    ensures err { IfErr result (λ fault. answer.now ≡ Err fault) }
{
    match answer {
        Ok(Reply::Joined { connection, from }) => Ok(Joined {
            connection: *connection,
            from: *from,
        }),
        Err(fault) => Err(*fault),
        Ok(
            Reply::Left
            | Reply::Subscribed
            | Reply::Arrived
            | Reply::More
            | Reply::Idle
            | Reply::Ended
            | Reply::Fetched { .. },
        ) => unreachable!(),
    }
}

/// Adds a connection; its identity may be empty. Fails with `JournalFull` if the desk has no more turns to
/// give, since the kernel gets no more calls then.
pub fn join<R: Wait>(
    rt: &R,
    desk: &Desk,
    pass: &mut Pass,
    channel: Channel,
    identity: Boxed<Bytes>,
) -> Result<Joined, KernelFault>
    requires { pass.old.turnstile ≡ desk.now }
    ensures same { (pass.new.turnstile ≡ desk.now) × (pass.new.seat ≡ pass.old.seat) }
    ensures ok { IfOk result (IsJoined pass.old (Join channel identity) pass.new) }
    ensures err { IfErr result (IsUnjoined pass.old (Join channel identity) pass.new) }
{
    match desk.turn(rt, pass, Call::Join { channel, identity }) {
        Ok(answer) => {
            let joined = joined_by(&answer);
            drop(answer);
            joined
        }
        Err(_) => Err(KernelFault::JournalFull),
    }
}
