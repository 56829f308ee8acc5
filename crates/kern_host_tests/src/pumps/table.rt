//! A kernel's desk with one pass for reading and one for writing.
ghost use Rattle.std.specs.Prelude.{◌≡◌, All, false, None};
ghost use Rattle.kern_net.specs.Gates.{no_polls};

use base_streams::memory::{Sink, Source};
use base_text::boxed::Boxed;
use base_text::sequence::Bytes;
use jup_wire::channel::Channel;
use kern_core::call::Call;
use kern_desk::desks::{MOST_ENTRIES, close_desk, join, open_desk};
use kern_desk::seated::{Desk, Pass, Seated};
use kern_net::end::PumpEnd;
use kern_net::pump_in::pump_in;
use kern_net::pump_out::pump_out;
use kern_net::routes::{IncomingRoute, OutgoingRoute};
use kern_net::runtime::Runtime;
use kern_net::worker::worker;
use kern_net_kit::gates::{InGate, OutGate, Quiet, UpTo, WorkGate};
use std::alloc::Global;
use std::process::Abort;
use std::sync::Wait;
use zmtp_wire::handshake::Peer;

// The letter of a call in the text of a journal.
fn letter_of(call: &Call) -> u8 {
    match call {
        Call::Join { .. } => b'J',
        Call::Leave { .. } => b'L',
        Call::Subscribe { .. } => b'U',
        Call::Arrive { .. } => b'A',
        Call::Slice { .. } => b'S',
        Call::Fetch { .. } => b'F',
    }
}

fn is_at(seated: &Seated, place: usize, letter: u8) -> bool {
    match seated.entry(place) {
        Some((_, call)) => letter_of(call) == letter,
        None => false,
    }
}

// Whether a journal has exactly these calls, given by their letters.
fn are_entries(seated: &Seated, calls: &str) -> bool {
    for (place, letter) in calls.as_bytes().iter().enumerate() {
        if !is_at(seated, place, *letter) {
            return false;
        }
    }
    seated.entry(calls.len()).is_none()
}

/// The connection from which messages come, and their key.
#[derive(Clone, Copy)]
pub struct Origin<'a> {
    pub connection: u32,
    pub channel: Channel,
    pub key: &'a [u8],
}

/// A connection whose messages aren't signed.
pub fn unsigned_origin(channel: Channel, connection: u32) -> Origin<'static> {
    Origin {
        connection,
        channel,
        key: b"",
    }
}

/// A desk with its two passes.
#[derive(Drop)]
pub struct Table {
    desk: Desk,
    reading: Pass,
    writing: Pass,
    ghost reading_own: { reading.turnstile ≡ desk },
    ghost writing_own: { writing.turnstile ≡ desk },
}

/// Opens a desk over a new kernel, with this limit of its journal's entries.
pub fn open_table<R: Abort>(rt: &R, alloc: Global, limit: u32) -> Table {
    assert!(rt; 1 <= limit && limit <= MOST_ENTRIES);
    let (desk, mut passes) = open_desk(alloc, limit, 2).expect(rt, "a desk");
    let writing = passes.pop().expect(rt, "a pass");
    let reading = passes.pop().expect(rt, "a pass");
    drop(passes);
    Table {
        desk,
        reading,
        writing,
    }
}

impl Table {
    /// Makes the Join of a connection without an identity, and returns its number.
    pub fn join<R: Wait + Abort>(&mut self, rt: &R, alloc: Global, channel: Channel) -> u32 {
        let identity = Boxed::new(alloc, Bytes::new(alloc)).expect(rt, "memory for an identity");
        let answer = join(rt, &self.desk, &mut self.reading, channel, identity);
        answer.expect(rt, "a connection").connection
    }

    /// Reads from a peer to its end.
    pub fn read<R: Wait>(
        &mut self,
        rt: &R,
        alloc: Global,
        gate: &mut InGate<Quiet>,
        from: &mut Source,
        peer: Peer,
        origin: Origin<'_>,
    ) -> PumpEnd
        requires ended { from.old.ended ≡ false }
        requires failed { from.old.failed ≡ false }
        requires woken { gate.old.due ≡ None }
    {
        let route = IncomingRoute {
            desk: &self.desk,
            connection: origin.connection,
            channel: origin.channel,
            key: origin.key,
        };
        let runtime = Runtime { rt, alloc };
        pump_in(&runtime, &mut self.reading, gate, from, peer, &route)
    }

    /// Writes the posts to a connection from a number on, unsigned.
    pub fn write<R: Wait>(
        &mut self,
        rt: &R,
        alloc: Global,
        gate: &mut OutGate<UpTo>,
        to: &mut Sink,
        connection: u32,
        from: u64,
    ) -> PumpEnd
        requires good { to.old.failed ≡ false }
        requires open { gate.old.idle.no ≡ 0 }
    {
        let route = OutgoingRoute {
            desk: &self.desk,
            connection,
            key: b"",
            session: "S",
        };
        let runtime = Runtime { rt, alloc };
        pump_out(&runtime, &mut self.writing, gate, to, &route, from)
    }

    /// Runs the worker.
    pub fn work<R: Wait>(&mut self, rt: &R, gate: &mut WorkGate<UpTo>) -> PumpEnd
        requires { gate.old.polls ≡ no_polls }
    {
        worker(rt, &self.desk, &mut self.reading, gate)
    }

    /// Closes the desk.
    pub fn close<R: Abort>(self, rt: &R, alloc: Global) -> Seated {
        let Table {
            desk,
            reading,
            writing,
        } = self;
        let passes = vec![in alloc; reading, writing].expect(rt, "memory for passes");
        close_desk(desk, passes).expect(rt, "all passes")
    }

    /// Closes the desk, and returns whether its journal has exactly these calls, with a letter for each: J
    /// for a Join, U for a Subscribe, A for an Arrive, S for a Slice, F for a Fetch.
    pub fn is_told<R: Abort>(self, rt: &R, alloc: Global, calls: &str) -> bool {
        let seated = self.close(rt, alloc);
        let is_told = are_entries(&seated, calls);
        drop(seated);
        is_told
    }
}
