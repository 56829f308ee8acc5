//! Conversations over memory: handshakes and heartbeats with streams worked out by hand from RFC 23.
ghost use Rattle.std.specs.Prelude.{◌≡◌, IfOk, false};

use crate::checks::{expect_at, expect_row};
use crate::framing::{DEALER, GREETING, OUR_GREETING, bytes_of};
use base_streams::memory::{Sink, Source};
use std::alloc::Global;
use std::process::Abort;
use std::test::Fail;
use zmtp_wire::fault::StreamFault;
use zmtp_wire::handshake::{Peer, handshake};
use zmtp_wire::heartbeat::heartbeat;
use zmtp_wire::peer_fault::PeerFault;
use zmtp_wire::role::Role;

pub(crate) const REQ: &str = "04190552454144590B536F636B65742D5479706500000003524551";

// What each side writes after its greeting: the READY of its role.
pub(crate) const ROUTER: &str = "041C0552454144590B536F636B65742D5479706500000006524F55544552";

pub(crate) const REP: &str = "04190552454144590B536F636B65742D5479706500000003524550";

// How much a reader and a writer move a call, and after how many calls they fail.
#[derive(Clone, Copy)]
struct Pace {
    read: (usize, u64),
    written: (usize, u64),
}

const AMPLE: Pace = Pace {
    read: (4096, 9999),
    written: (4096, 9999),
};

const BYTE_BY_BYTE: Pace = Pace {
    read: (1, 9999),
    written: (1, 9999),
};

fn ports(alloc: Global, given: &[u8], pace: Pace) -> Result<(Source, Sink), Fail>
    ensures { IfOk result (λ p. (p.0.ended ≡ false) × (p.0.failed ≡ false) × (p.1.failed ≡ false)) }
{
    let from = Source::new(given.to_vec(alloc)?, pace.read.0, pace.read.1);
    Ok((from, Sink::new(alloc, pace.written.0, pace.written.1)))
}

// How many bytes were written, which have to be the first of those expected.
fn front_length(alloc: Global, written: &[u8], ready: &str, echoed: &str) -> Result<usize, Fail> {
    let expected = bytes_of(alloc, OUR_GREETING, ready, echoed)?;
    if expected.as_slice().starts_with(written) {
        Ok(written.len())
    } else {
        Err(Fail::from("other bytes"))
    }
}

fn fault_of(answer: Result<Peer, PeerFault>) -> Option<PeerFault> {
    let fault = match &answer {
        Ok(_) => None,
        Err(fault) => Some(*fault),
    };
    drop(answer);
    fault
}

// What a ROUTER's handshake returns, and how many bytes it has written, which are those expected.
fn router_answer(
    alloc: Global,
    given: &[u8],
    pace: Pace,
) -> Result<(Option<PeerFault>, usize), Fail> {
    let (mut from, mut to) = ports(alloc, given, pace)?;
    let answer = handshake(alloc, &mut from, &mut to, Role::Router);
    drop(from);
    let length = front_length(alloc, to.as_slice(), ROUTER, "");
    drop(to);
    Ok((fault_of(answer), length?))
}

// The same for a ROUTER that reads a greeting and a READY.
fn answer_to(alloc: Global, ready: &str, pace: Pace) -> Result<(Option<PeerFault>, usize), Fail> {
    let given = bytes_of(alloc, GREETING, ready, "")?;
    router_answer(alloc, given.as_slice(), pace)
}

const PACES: [Pace; 2] = [AMPLE, BYTE_BY_BYTE];

// The greeting is written before anything is read, READY once the peer's greeting is whole.
#[test]
fn cut_greetings(rt: HostRuntime) -> Result<(), Fail> {
    let given = bytes_of(rt.alloc(), GREETING, DEALER, "")?;
    for count in 0..94usize {
        let (piece, _) = given.split_at(count.min(given.len()));
        let answer = router_answer(rt.alloc(), piece, AMPLE)?;
        let written = if count < 64 { 64 } else { 94 };
        let is_cut = answer == (Some(PeerFault::PeerEnded), written);
        expect_at(&rt, is_cut, "another answer to bytes", count as u64);
    }
    Ok(())
}

const OF_SUB: &str = "04190552454144590B536F636B65742D5479706500000003535542";

const OF_ANOTHER_LENGTH: &str = "04190552454144590B536F636B65742D5479706500000004524551";

const SOCKET_TYPE: Option<PeerFault> = Some(PeerFault::Wire(StreamFault::SocketType));

const COMMAND: Option<PeerFault> = Some(PeerFault::Wire(StreamFault::Command));

// What comes after the greeting, how it comes, why it is refused, if it is, and how much is written. Where
// both come in one piece and READY is refused, our READY isn't written.
const HANDSHAKES: [(&str, Pace, (Option<PeerFault>, usize)); 6] = [
    (DEALER, AMPLE, (None, 94)),
    (DEALER, BYTE_BY_BYTE, (None, 94)),
    (OF_SUB, AMPLE, (SOCKET_TYPE, 64)),
    (OF_SUB, BYTE_BY_BYTE, (SOCKET_TYPE, 94)),
    (OF_ANOTHER_LENGTH, AMPLE, (COMMAND, 64)),
    (OF_ANOTHER_LENGTH, BYTE_BY_BYTE, (COMMAND, 94)),
];

#[test]
fn handshakes(rt: HostRuntime) -> Result<(), Fail> {
    for (place, (ready, pace, wanted)) in HANDSHAKES.iter().enumerate() {
        let answer = answer_to(rt.alloc(), ready, *pace)?;
        expect_row(&rt, answer == *wanted, place);
    }
    Ok(())
}

// What a heartbeat returns, and how many bytes it has written of those expected.
fn beat_answer(
    alloc: Global,
    given: &[u8],
    echoed: &str,
    pace: Pace,
) -> Result<(PeerFault, usize), Fail> {
    let (mut from, mut to) = ports(alloc, given, pace)?;
    let fault = heartbeat(alloc, &mut from, &mut to);
    drop(from);
    let length = front_length(alloc, to.as_slice(), REP, echoed);
    drop(to);
    Ok((fault, length?))
}

// The same for one that reads a greeting, a READY and this.
fn beat(
    alloc: Global,
    traffic: &str,
    echoed: &str,
    pace: Pace,
) -> Result<(PeerFault, usize), Fail> {
    let given = bytes_of(alloc, GREETING, REQ, traffic)?;
    beat_answer(alloc, given.as_slice(), echoed, pace)
}

// How many bytes a heartbeat writes that sends this back.
fn whole_length(alloc: Global, echoed: &str) -> Result<usize, Fail> {
    let whole = bytes_of(alloc, OUR_GREETING, REP, echoed)?;
    Ok(whole.len())
}

// An empty frame and `ping`, as REQ sends them.
pub(crate) const PING: &str = "0100 000470696E67";

// What comes after READY, what of it is sent back, and why it ends.
const BEATS: [(&str, &str, PeerFault); 5] = [
    ("", "", PeerFault::PeerEnded),
    (PING, PING, PeerFault::PeerEnded),
    (
        "0100 000470696E67 0100 000470696E67 01",
        "0100 000470696E67 0100 000470696E67",
        PeerFault::PeerEnded,
    ),
    (
        "0100 000470696E67 08",
        PING,
        PeerFault::Wire(StreamFault::Flags),
    ),
    ("08", "", PeerFault::Wire(StreamFault::Flags)),
];

#[test]
fn heartbeats(rt: HostRuntime) -> Result<(), Fail> {
    for (traffic, echoed, end) in &BEATS {
        let whole = whole_length(rt.alloc(), echoed)?;
        for pace in &PACES {
            let answer = beat(rt.alloc(), traffic, echoed, *pace)?;
            assert!(rt; answer == (*end, whole), "{traffic}");
        }
    }
    Ok(())
}

// How much is written before the read after so many.
fn count_before(calls: u64) -> usize {
    match calls {
        0..=63 => 64,
        64..=98 => 91,
        _ => 99,
    }
}

// Each read fails once: what was written is the answer to what came before.
#[test]
fn failing_reads(rt: HostRuntime) -> Result<(), Fail> {
    for calls in 0..100u64 {
        let pace = Pace {
            read: (1, calls),
            written: (4096, 9999),
        };
        let answer = beat(rt.alloc(), PING, PING, pace)?;
        let is_cut = answer == (PeerFault::ReadFailed, count_before(calls));
        expect_at(&rt, is_cut, "another answer after reads", calls);
    }
    Ok(())
}

// Each write fails once: what was written is the whole text, cut there.
#[test]
fn failing_writes(rt: HostRuntime) -> Result<(), Fail> {
    for calls in 0..99u64 {
        let pace = Pace {
            read: (4096, 9999),
            written: (1, calls),
        };
        let answer = beat(rt.alloc(), PING, PING, pace)?;
        let is_cut = answer == (PeerFault::WriteFailed, calls as usize);
        expect_at(&rt, is_cut, "another answer after writes", calls);
    }
    Ok(())
}
