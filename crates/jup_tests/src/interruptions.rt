//! Handshakes and heartbeats whose reads and writes move one byte each and are all interrupted once: they go
//! as if none were interrupted, and a failure after an interruption is still a failure.

use crate::checks::expect_at;
use crate::framing::{DEALER, GREETING, OUR_GREETING, bytes_of};
use crate::peers::{PING, REP, REQ, ROUTER};
use base_streams::std_io::{StdInlet, StdOutlet};
use base_test_kit::fakes::Slow;
use std::alloc::Global;
use std::io;
use std::io::{ErrorKind, Write};
use std::process::Abort;
use std::test::Fail;
use zmtp_wire::handshake::handshake;
use zmtp_wire::heartbeat::heartbeat;
use zmtp_wire::peer_fault::PeerFault;
use zmtp_wire::role::Role;

// A writer that takes one byte at a time, is interrupted before each, and fails once it has this many.
#[derive(Drop)]
struct Interrupted {
    bytes: Vec<u8>,
    room: usize,
    is_interrupted: bool,
}

impl Write for Interrupted {
    fn write(&mut self, buf: &[u8]) -> io::Result<usize> {
        self.is_interrupted = !self.is_interrupted;
        if self.is_interrupted {
            return Err(io::Error::from(ErrorKind::Interrupted));
        }
        if self.bytes.len() >= self.room {
            return Err(io::Error::from(ErrorKind::BrokenPipe));
        }
        match buf.first() {
            Some(byte) => {
                self.bytes.push(*byte)?;
                Ok(1)
            }
            None => Ok(0),
        }
    }

    fn flush(&mut self) -> io::Result<()> {
        Ok(())
    }
}

// What the conversation is: a handshake alone, or a heartbeat.
#[derive(Clone, Copy)]
enum Talk {
    Handshake,
    Heartbeat,
}

// Whether reading fails where the bytes end, how many bytes may be written, and why it ends, if it does.
type Row = (Talk, bool, usize, Option<PeerFault>, usize);

// A handshake writes 94 bytes, a heartbeat 91 and 8 for its ping.
const ROWS: [Row; 8] = [
    (Talk::Handshake, false, 999, None, 94),
    (Talk::Handshake, false, 63, Some(PeerFault::WriteFailed), 63),
    (Talk::Handshake, false, 93, Some(PeerFault::WriteFailed), 93),
    (Talk::Heartbeat, false, 999, Some(PeerFault::PeerEnded), 99),
    (Talk::Heartbeat, true, 999, Some(PeerFault::ReadFailed), 99),
    (Talk::Heartbeat, false, 0, Some(PeerFault::WriteFailed), 0),
    (Talk::Heartbeat, true, 95, Some(PeerFault::WriteFailed), 95),
    (Talk::Heartbeat, true, 98, Some(PeerFault::WriteFailed), 98),
];

fn bytes_given(alloc: Global, talk: Talk) -> Result<Vec<u8>, Fail> {
    match talk {
        Talk::Handshake => bytes_of(alloc, GREETING, DEALER, ""),
        Talk::Heartbeat => bytes_of(alloc, GREETING, REQ, PING),
    }
}

fn bytes_wanted(alloc: Global, talk: Talk) -> Result<Vec<u8>, Fail> {
    match talk {
        Talk::Handshake => bytes_of(alloc, OUR_GREETING, ROUTER, ""),
        Talk::Heartbeat => bytes_of(alloc, OUR_GREETING, REP, PING),
    }
}

// How a conversation ends over these bytes, and what it has written.
fn talk_over(
    alloc: Global,
    talk: Talk,
    given: &[u8],
    fails: bool,
    room: usize,
) -> (Option<PeerFault>, Vec<u8>) {
    let mut from = StdInlet::new(Slow {
        rest: given,
        piece: 1,
        is_interrupted: false,
        fails,
    });
    let mut to = StdOutlet::new(Interrupted {
        bytes: Vec::new(alloc),
        room,
        is_interrupted: false,
    });
    let end = match talk {
        Talk::Handshake => handshake(alloc, &mut from, &mut to, Role::Router).err(),
        Talk::Heartbeat => Some(heartbeat(alloc, &mut from, &mut to)),
    };
    let Interrupted { bytes, .. } = to.into_inner();
    (end, bytes)
}

fn check_row(rt: &impl Abort, alloc: Global, row: Row, place: usize) -> Result<(), Fail> {
    let (talk, fails, room, end, count) = row;
    let given = bytes_given(alloc, talk)?;
    let wanted = bytes_wanted(alloc, talk)?;
    let (found, written) = talk_over(alloc, talk, given.as_slice(), fails, room);
    let is_front = wanted.as_slice().starts_with(written.as_slice());
    expect_at(rt, found == end, "another end in row", place as u64);
    let are_written = is_front && written.len() == count;
    expect_at(rt, are_written, "other bytes in row", place as u64);
    Ok(())
}

#[test]
fn interrupted_talks(rt: HostRuntime) -> Result<(), Fail> {
    for (place, row) in ROWS.iter().enumerate() {
        check_row(&rt, rt.alloc(), *row, place)?;
    }
    Ok(())
}
