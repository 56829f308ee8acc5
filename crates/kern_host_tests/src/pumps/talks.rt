//! Conversations over memory: first everything is read that a client sends, then everything is written to it.
ghost use Rattle.std.specs.Prelude.{◌≡◌, false, None};

use crate::pumps::messages::{KEY, Part, bytes_of, is_front};
use crate::pumps::table::{Origin, Table};
use base_streams::memory::{Sink, Source};
use jup_wire::channel::Channel;
use kern_net::end::PumpEnd;
use kern_net_kit::gates::{InGate, OutGate, Quiet, UpTo};
use std::alloc::Global;
use std::process::Abort;
use std::sync::Wait;
use zmtp_wire::handshake::handshake;
use zmtp_wire::peer_fault::PeerFault;
use zmtp_wire::role::Role;

/// How many bytes a reader and a writer move at most in a call, and after how many calls they fail.
#[derive(Clone, Copy)]
pub struct Pace {
    pub read: (usize, u64),
    pub written: (usize, u64),
}

pub const AMPLE: Pace = Pace {
    read: (4096, 9999),
    written: (4096, 9999),
};

pub const BYTE_BY_BYTE: Pace = Pace {
    read: (1, 9999),
    written: (1, 9999),
};

/// How a conversation ends.
#[derive(Clone, Copy, PartialEq, Eq)]
pub enum Course {
    /// The handshake fails.
    Unmet(PeerFault),
    /// How reading ends, and then writing, whose gate answers yes twice.
    Met(PumpEnd, PumpEnd),
}

/// A writer's gate answers yes twice.
pub const TWICE: UpTo = UpTo {
    befores: 0,
    idles: 2,
};

/// The stream ends, and then the writer's gate says no.
pub const BOTH_END: Course = Course::Met(PumpEnd::PeerEnded, PumpEnd::Ended);

/// A client of the kernel.
#[derive(Clone, Copy)]
pub enum Client {
    /// Sends unsigned kernel_info_requests on shell.
    Shell,
    /// The same, signed with the key.
    Signing,
    /// Sends a kernel_info_request, and then a shutdown_request.
    Closing,
    Subscriber,
}

impl Client {
    fn channel(self) -> Channel {
        match self {
            Client::Subscriber => Channel::Iopub,
            _ => Channel::Shell,
        }
    }

    fn key(self) -> &'static [u8] {
        match self {
            Client::Signing => KEY,
            _ => b"",
        }
    }

    // What the kernel writes to it at most. It is less if the client asks for less, or if something fails.
    fn replies(self) -> &'static [Part] {
        match self {
            Client::Closing => CLOSED,
            Client::Subscriber => SUBSCRIBED,
            _ => TOLD_TWICE,
        }
    }
}

const TOLD_TWICE: &[Part] = &[
    Part::Router,
    Part::Unsigned,
    Part::InfoReply2,
    Part::InfoReply,
    Part::Unsigned,
    Part::InfoReply5,
    Part::InfoReply,
];

const CLOSED: &[Part] = &[
    Part::Router,
    Part::Unsigned,
    Part::InfoReply2,
    Part::InfoReply,
    Part::Unsigned,
    Part::ShutdownReply5,
];

const SUBSCRIBED: &[Part] = &[Part::Pub, Part::Status];

/// How a conversation ended, how many bytes were written, and whether they are a prefix of the expected ones.
#[derive(Clone, Copy)]
pub struct Told {
    pub course: Course,
    pub written: usize,
    pub is_front: bool,
}

fn course_of<R: Wait + Abort>(
    rt: &R,
    alloc: Global,
    table: &mut Table,
    client: Client,
    from: &mut Source,
    to: &mut Sink,
) -> Course
    requires ended { from.old.ended ≡ false }
    requires failed { from.old.failed ≡ false }
    requires good { to.old.failed ≡ false }
{
    let peer = match handshake(alloc, from, to, role_on(client.channel())) {
        Ok(peer) => peer,
        Err(fault) => return Course::Unmet(fault),
    };
    let connection = table.join(rt, alloc, client.channel());
    let origin = Origin {
        connection,
        channel: client.channel(),
        key: client.key(),
    };
    let mut gate = InGate::new(Quiet);
    let read = table.read(rt, alloc, &mut gate, from, peer, origin);
    let mut gate = OutGate::new(TWICE);
    let wrote = table.write(rt, alloc, &mut gate, to, connection, 1);
    Course::Met(read, wrote)
}

/// Has a conversation at a table, in which the client writes some parts.
pub fn talk_at<R: Wait + Abort>(
    rt: &R,
    alloc: Global,
    table: &mut Table,
    client: Client,
    given: &[Part],
    pace: Pace,
) -> Told {
    let mut from = Source::new(bytes_of(rt, alloc, given), pace.read.0, pace.read.1);
    let mut to = Sink::new(alloc, pace.written.0, pace.written.1);
    let course = course_of(rt, alloc, table, client, &mut from, &mut to);
    let told = Told {
        course,
        written: to.as_slice().len(),
        is_front: is_front(to.as_slice(), client.replies()),
    };
    drop(from);
    drop(to);
    told
}

fn role_on(channel: Channel) -> Role {
    match channel {
        Channel::Iopub => Role::Pub,
        Channel::Shell | Channel::Stdin | Channel::Control => Role::Router,
    }
}

// Makes a handshake, and reads to the end. What the handshake writes isn't kept.
fn read_met<R: Wait>(
    rt: &R,
    alloc: Global,
    table: &mut Table,
    gate: &mut InGate<Quiet>,
    origin: Origin<'_>,
    from: &mut Source,
) -> Result<PumpEnd, PeerFault>
    requires ended { from.old.ended ≡ false }
    requires failed { from.old.failed ≡ false }
    requires woken { gate.old.due ≡ None }
{
    let mut to = Sink::new(alloc, 4096, 9999);
    let met = handshake(alloc, from, &mut to, role_on(origin.channel));
    drop(to);
    match met {
        Ok(peer) => Ok(table.read(rt, alloc, gate, from, peer, origin)),
        Err(fault) => Err(fault),
    }
}

/// How reading ends, or why the handshake failed.
pub fn read_as<R: Wait + Abort>(
    rt: &R,
    alloc: Global,
    table: &mut Table,
    gate: &mut InGate<Quiet>,
    origin: Origin<'_>,
    given: &[Part],
) -> Result<PumpEnd, PeerFault>
    requires { gate.old.due ≡ None }
{
    let mut from = Source::new(bytes_of(rt, alloc, given), 4096, 9999);
    let end = read_met(rt, alloc, table, gate, origin, &mut from);
    drop(from);
    end
}
