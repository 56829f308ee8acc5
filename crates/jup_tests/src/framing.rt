//! Streams worked out by hand from RFC 23, cut in many ways.
ghost use Rattle.std.specs.Prelude.{◌<◌, length, IfOk};

use base_text::hexadecimal::digit_value;
use base_text::sequence::{Bytes, Frames};
use std::alloc::{AllocError, Global};
use std::process::Abort;
use std::test::Fail;
use zmtp_wire::decoder::Decoder;
use zmtp_wire::fault::{FeedFault, StreamFault};
use zmtp_wire::messages::Messages;
use zmtp_wire::role::Role;
use zmtp_wire::writing::{greeting, put_message, ready};

// A greeting in which all free bytes are filled in, and a DEALER's READY.
pub(crate) const GREETING: &str = "FF00000000000000017F03014E554C4C00000000000000000000000000000000\
    0100000000000000000000000000000000000000000000000000000000000009";

pub(crate) const DEALER: &str = "041C0552454144590B536F636B65742D54797065000000064445414C4552";

// The greeting that each side writes: version 3.0, NULL.
pub(crate) const OUR_GREETING: &str =
    "FF00000000000000007F03004E554C4C00000000000000000000000000000000\
    0000000000000000000000000000000000000000000000000000000000000000";

// Adds the bytes that digits spell.
fn push_hex(bytes: &mut Vec<u8>, digits: &str) -> Result<(), Fail> {
    let mut high = None;
    for digit in digits.as_bytes() {
        let Some(digit) = digit_value(*digit) else {
            continue;
        };
        match high {
            None => high = Some(digit),
            Some(first) => {
                bytes.push(first % 16 * 16 + digit)?;
                high = None;
            }
        }
    }
    Ok(())
}

// The bytes of three parts.
pub(crate) fn bytes_of(
    alloc: Global,
    greeting: &str,
    ready: &str,
    traffic: &str,
) -> Result<Vec<u8>, Fail> {
    let mut bytes = Vec::new(alloc);
    push_hex(&mut bytes, greeting)?;
    push_hex(&mut bytes, ready)?;
    push_hex(&mut bytes, traffic)?;
    Ok(bytes)
}

// What is left of a text after a part and the byte that ends it.
fn text_after_part<'a>(text: &'a [u8], part: &[u8], end: u8) -> Option<&'a [u8]> {
    let (last, others) = text.strip_prefix(part)?.split_first()?;
    if *last == end { Some(others) } else { None }
}

// What is left of a text after these messages: each frame ends with a comma, each message with a full stop.
fn text_after<'a>(text: &'a [u8], messages: &[Frames]) -> Option<&'a [u8]> {
    let mut text = text;
    for message in messages {
        for frame in message.as_slice() {
            text = text_after_part(text, frame.as_slice(), b',')?;
        }
        text = text_after_part(text, b"", b'.')?;
    }
    Some(text)
}

// Whether a peer's READY was accepted, and whether it has an identity.
fn readiness_of(decoder: &Decoder) -> (bool, bool) {
    (decoder.is_ready(), decoder.identity().is_some())
}

fn is_out_of_memory(answer: &Result<Messages, FeedFault>) -> bool {
    match answer {
        Err(FeedFault::OutOfMemory) => true,
        _ => false,
    }
}

// What a feed returns. If memory runs out, the side must be as before, and the same piece is fed again.
fn answer_of(alloc: Global, decoder: &mut Decoder, piece: &[u8]) -> Result<Messages, FeedFault> {
    let before = readiness_of(decoder);
    let answer = decoder.feed(alloc, piece);
    if is_out_of_memory(&answer) && readiness_of(decoder) == before {
        drop(answer);
        return decoder.feed(alloc, piece);
    }
    answer
}

fn text_left<'a>(text: &'a [u8], messages: &Messages) -> Result<&'a [u8], Fail> {
    Ok(text_after(text, messages.as_slice()).ok_or("other messages")?)
}

fn text_and_fault<'a>(
    text: &'a [u8],
    answer: &Result<Messages, FeedFault>,
) -> Result<(&'a [u8], Option<StreamFault>), Fail> {
    match answer {
        Ok(messages) => Ok((text_left(text, messages)?, None)),
        Err(FeedFault::Broken { before, cause }) => Ok((text_left(text, before)?, Some(*cause))),
        Err(FeedFault::OutOfMemory) => Err(Fail::from(AllocError)),
    }
}

// Feeds a piece that completes the messages at the front of a text. Returns the text that is left, and the
// fault.
fn feed<'a>(
    alloc: Global,
    decoder: &mut Decoder,
    piece: &[u8],
    text: &'a [u8],
) -> Result<(&'a [u8], Option<StreamFault>), Fail> {
    let answer = answer_of(alloc, decoder, piece);
    let told = text_and_fault(text, &answer);
    drop(answer);
    told
}

// Feeds bytes in pieces of this size, which complete the messages of this text and no others. Returns how
// many bytes had been fed when the stream broke, and why it broke.
fn feed_all(
    alloc: Global,
    decoder: &mut Decoder,
    bytes: &[u8],
    size: usize,
    text: &str,
) -> Result<Option<(usize, StreamFault)>, Fail> {
    let mut text = text.as_bytes();
    let mut fed = 0usize;
    let mut broken = None;
    for piece in bytes.chunks(size.max(1)) {
        let (left, fault) = feed(alloc, decoder, piece, text)?;
        text = left;
        fed = fed.saturating_add(piece.len());
        if let Some(fault) = fault {
            broken = Some((fed, fault));
            break;
        }
    }
    if text.is_empty() {
        Ok(broken)
    } else {
        Err(Fail::from("too few messages"))
    }
}

fn is_fed(alloc: Global, decoder: &mut Decoder, bytes: &[u8]) -> bool {
    let answer = decoder.feed(alloc, bytes);
    let is_fed = answer.is_ok();
    drop(answer);
    is_fed
}

// A ROUTER that has read these bytes, in one piece.
fn router_after(alloc: Global, greeting: &str, ready: &str) -> Result<Decoder, Fail> {
    let bytes = bytes_of(alloc, greeting, ready, "")?;
    let mut decoder = Decoder::new(alloc, Role::Router);
    let is_fed = is_fed(alloc, &mut decoder, bytes.as_slice());
    drop(bytes);
    if is_fed {
        return Ok(decoder);
    }
    drop(decoder);
    Err(Fail::from("no handshake"))
}

// Bytes, the messages that they complete, and where and why they break the stream.
type Row = (&'static str, &'static str, Option<(usize, StreamFault)>);

fn feed_one_by_one(
    alloc: Global,
    decoder: &mut Decoder,
    digits: &str,
    text: &str,
) -> Result<Option<(usize, StreamFault)>, Fail> {
    let bytes = bytes_of(alloc, "", "", digits)?;
    feed_all(alloc, decoder, bytes.as_slice(), 1, text)
}

// Feeds bytes one by one to a ROUTER that has read the greeting and the READY.
fn outcome(
    alloc: Global,
    greeting: &str,
    ready: &str,
    digits: &str,
    text: &str,
) -> Result<Option<(usize, StreamFault)>, Fail> {
    let mut decoder = router_after(alloc, greeting, ready)?;
    let outcome = feed_one_by_one(alloc, &mut decoder, digits, text);
    drop(decoder);
    outcome
}

fn check_rows(
    rt: &impl Abort,
    alloc: Global,
    greeting: &str,
    ready: &str,
    rows: &[Row],
) -> Result<(), Fail> {
    for (digits, text, broken) in rows {
        let found = outcome(alloc, greeting, ready, digits, text)?;
        assert!(rt; found == *broken, "{digits}");
    }
    Ok(())
}

const GREETINGS: [Row; 7] = [
    ("FE", "", Some((1, StreamFault::Signature))),
    (
        "FF00000000000000007E",
        "",
        Some((10, StreamFault::Signature)),
    ),
    (
        "FF01020304050607087F02",
        "",
        Some((11, StreamFault::Version)),
    ),
    ("FF00000000000000007F04FF4E554C4C00", "", None),
    (
        "FF00000000000000007F0300504C41494E",
        "",
        Some((13, StreamFault::Mechanism)),
    ),
    (
        "FF00000000000000007F03004E554C4C53",
        "",
        Some((17, StreamFault::Mechanism)),
    ),
    (
        "FF00000000000000007F03004E554C4C00000000000000000000000000000001",
        "",
        Some((32, StreamFault::Mechanism)),
    ),
];

const HANDSHAKES: [Row; 13] = [
    ("08", "", Some((1, StreamFault::Flags))),
    ("00", "", Some((1, StreamFault::Command))),
    ("03", "", Some((1, StreamFault::Command))),
    ("0400", "", Some((2, StreamFault::Command))),
    ("04050450494E47", "", Some((7, StreamFault::Command))),
    ("0406055245414459", "", Some((8, StreamFault::SocketType))),
    ("04080552454144590000", "", Some((10, StreamFault::Command))),
    ("040D055245414459017800000001", "", None),
    (
        "040C055245414459017800000001",
        "",
        Some((14, StreamFault::Command)),
    ),
    (
        "04190552454144590B536F636B65742D5479706500000003535542",
        "",
        Some((27, StreamFault::SocketType)),
    ),
    (
        "0600000000000000190552454144590B734F434B45542D7459504500000003524551 000161",
        "a,.",
        None,
    ),
    ("060000000000100001", "", Some((9, StreamFault::FrameSize))),
    ("0401", "", None),
];

const TRAFFIC: [Row; 16] = [
    ("01 00 00 05 68 65 6C 6C 6F", ",hello,.", None),
    ("02 00 00 00 00 00 00 00 01 61", "a,.", None),
    ("02 00 00 00 00 00 10 00 00", "", None),
    (
        "02 00 00 00 00 00 10 00 01",
        "",
        Some((9, StreamFault::FrameSize)),
    ),
    (
        "06 00 00 00 00 00 10 00 01",
        "",
        Some((9, StreamFault::FrameSize)),
    ),
    (
        "03 00 00 00 00 00 11",
        "",
        Some((7, StreamFault::FrameSize)),
    ),
    ("02 80", "", Some((2, StreamFault::FrameSize))),
    ("00 01 61 08", "a,.", Some((4, StreamFault::Flags))),
    ("05", "", Some((1, StreamFault::Flags))),
    ("07", "", Some((1, StreamFault::Flags))),
    ("01 00 04", "", Some((3, StreamFault::Command))),
    (
        "04 06 05 45 52 52 4F 52",
        "",
        Some((8, StreamFault::Command)),
    ),
    ("04 00", "", Some((2, StreamFault::Command))),
    ("04 02 02 61", "", Some((4, StreamFault::Command))),
    ("04 05 04 50 49 4E 47 00 01 61", "a,.", None),
    ("04 06 05 52 45 41 44 59 00 01 61", "a,.", None),
];

// Sixty-three frames that more frames follow, and then another such frame, or the last one.
const FRAME_COUNTS: [Row; 2] = [
    (
        "0100 0100 0100 0100 0100 0100 0100 0100 0100 0100 0100 0100 0100 0100 0100 0100 0100 0100 0100\
         0100 0100 0100 0100 0100 0100 0100 0100 0100 0100 0100 0100 0100 0100 0100 0100 0100 0100 0100\
         0100 0100 0100 0100 0100 0100 0100 0100 0100 0100 0100 0100 0100 0100 0100 0100 0100 0100 0100\
         0100 0100 0100 0100 0100 0100 01",
        "",
        Some((127, StreamFault::FrameCount)),
    ),
    (
        "0100 0100 0100 0100 0100 0100 0100 0100 0100 0100 0100 0100 0100 0100 0100 0100 0100 0100 0100\
         0100 0100 0100 0100 0100 0100 0100 0100 0100 0100 0100 0100 0100 0100 0100 0100 0100 0100 0100\
         0100 0100 0100 0100 0100 0100 0100 0100 0100 0100 0100 0100 0100 0100 0100 0100 0100 0100 0100\
         0100 0100 0100 0100 0100 0100 0000",
        ",,,,,,,,,,,,,,,,,,,,,,,,,,,,,,,,,,,,,,,,,,,,,,,,,,,,,,,,,,,,,,,,.",
        None,
    ),
];

// What a ROUTER has read before, a greeting and a READY, and what comes next.
const STREAMS: [(&str, &str, &[Row]); 4] = [
    ("", "", &GREETINGS),
    (GREETING, "", &HANDSHAKES),
    (GREETING, DEALER, &TRAFFIC),
    (GREETING, DEALER, &FRAME_COUNTS),
];

#[test]
fn streams(rt: HostRuntime) -> Result<(), Fail> {
    for (greeting, ready, rows) in &STREAMS {
        check_rows(&rt, rt.alloc(), greeting, ready, rows)?;
    }
    Ok(())
}

// Feeds the same piece again and again.
fn check_again(rt: &impl Abort, alloc: Global, decoder: &mut Decoder) -> Result<(), Fail> {
    for text in &["a,.", "", ""] {
        let broken = feed_all(alloc, decoder, b"\0\x01a\x08", 4, text)?;
        assert!(rt; broken == Some((4, StreamFault::Flags)));
    }
    Ok(())
}

#[test]
fn faults_stay(rt: HostRuntime) -> Result<(), Fail> {
    let mut decoder = router_after(rt.alloc(), GREETING, DEALER)?;
    let checked = check_again(&rt, rt.alloc(), &mut decoder);
    drop(decoder);
    checked
}

// A peer's READY, whether it is accepted, and its identity.
const IDENTITIES: [(&str, bool, Option<&[u8]>); 4] = [
    ("", false, None),
    (DEALER, true, None),
    (
        "04290552454144590B536F636B65742D54797065000000064445414C4552084964656E7469747900000000",
        true,
        Some(b""),
    ),
    (
        "0438055245414459084964656E7469747900000001610B536F636B65742D5479706500000006524F5554455208\
        4944454E544954590000000162",
        true,
        Some(b"a"),
    ),
];

// Whether the peer has this identity, or none.
fn has_identity(decoder: &Decoder, want: Option<&[u8]>) -> bool {
    match (decoder.identity(), want) {
        (Some(identity), Some(want)) => identity.as_slice() == want,
        (None, None) => true,
        _ => false,
    }
}

// Whether READY is accepted, and whether it has this identity, or none.
fn readiness_after(alloc: Global, ready: &str, want: Option<&[u8]>) -> Result<(bool, bool), Fail> {
    let decoder = router_after(alloc, GREETING, ready)?;
    let known = (decoder.is_ready(), has_identity(&decoder, want));
    drop(decoder);
    Ok(known)
}

#[test]
fn identities(rt: HostRuntime) -> Result<(), Fail> {
    for (ready, is_ready, identity) in &IDENTITIES {
        let known = readiness_after(rt.alloc(), ready, *identity)?;
        assert!(rt; known == (*is_ready, true), "{ready}");
    }
    Ok(())
}

const ROLES: [Role; 5] = [Role::Router, Role::Pub, Role::Rep, Role::Dealer, Role::Sub];

// A peer's socket type, and the roles that accept it.
const ACCEPTED: [(&str, &[Role]); 8] = [
    ("DEALER", &[Role::Router, Role::Rep]),
    ("PUB", &[Role::Sub]),
    ("REP", &[]),
    ("REQ", &[Role::Router, Role::Rep]),
    ("ROUTER", &[Role::Router, Role::Dealer]),
    ("SUB", &[Role::Pub]),
    ("XSUB", &[Role::Pub]),
    ("router", &[]),
];

#[test]
fn accepted_types(rt: HostRuntime) {
    for (name, roles) in &ACCEPTED {
        for role in &ROLES {
            let is_accepted = role.accepts(name.as_bytes());
            assert!(rt; is_accepted == roles.contains(role), "{name}");
        }
    }
}

// What a side of each role writes after its greeting.
const READIES: [(Role, &str); 5] = [
    (
        Role::Router,
        "04 1C 05 52 45 41 44 59 0B 53 6F 63 6B 65 74 2D 54 79 70 65 00 00 00 06 52 4F 55 54 45 52",
    ),
    (
        Role::Pub,
        "04 19 05 52 45 41 44 59 0B 53 6F 63 6B 65 74 2D 54 79 70 65 00 00 00 03 50 55 42",
    ),
    (
        Role::Rep,
        "04 19 05 52 45 41 44 59 0B 53 6F 63 6B 65 74 2D 54 79 70 65 00 00 00 03 52 45 50",
    ),
    (
        Role::Sub,
        "04 19 05 52 45 41 44 59 0B 53 6F 63 6B 65 74 2D 54 79 70 65 00 00 00 03 53 55 42",
    ),
    (Role::Dealer, DEALER),
];

fn is_spelled(alloc: Global, bytes: &[u8], digits: &str) -> Result<bool, Fail> {
    let want = bytes_of(alloc, digits, "", "")?;
    Ok(bytes == want.as_slice())
}

#[test]
fn written_handshakes(rt: HostRuntime) -> Result<(), Fail> {
    assert!(rt; is_spelled(rt.alloc(), greeting(), OUR_GREETING)?);
    for (role, digits) in &READIES {
        assert!(rt; is_spelled(rt.alloc(), ready(*role), digits)?, "{digits}");
    }
    Ok(())
}

// An empty frame and one of 256 bytes.
fn two_frames(alloc: Global) -> Result<Frames, AllocError>
    ensures { IfOk result (λ frames. 0 < length frames) }
{
    let long = vec![in alloc; b'x'; 256]?;
    let mut frames = Frames::new(alloc);
    frames.push(Bytes::new(alloc))?;
    frames.push(Bytes::from(long))?;
    Ok(frames)
}

// The message of these two frames.
fn message_of_two(alloc: Global) -> Result<Bytes, AllocError> {
    let frames = two_frames(alloc)?;
    let message = put_message(alloc, frames.as_slice());
    drop(frames);
    message
}

// Whether these are the heads and the bytes of those two frames.
fn are_two(bytes: &[u8]) -> bool {
    match bytes.strip_prefix(b"\x01\0\x02\0\0\0\0\0\0\x01\0") {
        Some(long) => long == [b'x'; 256].as_slice(),
        None => false,
    }
}

#[test]
fn written_message(rt: HostRuntime) -> Result<(), Fail> {
    let message = message_of_two(rt.alloc())?;
    assert!(rt; are_two(message.as_slice()));
    Ok(())
}

// A handshake and these messages five hundred times.
fn long_stream(alloc: Global) -> Result<Vec<u8>, Fail> {
    let mut bytes = bytes_of(alloc, GREETING, DEALER, "")?;
    for _ in 0..500 {
        push_hex(
            &mut bytes,
            "01 01 61 02 00 00 00 00 00 00 00 02 68 69 00 01 62",
        )?;
    }
    Ok(bytes)
}

// The text of those messages.
fn long_text(alloc: Global) -> Result<String, AllocError> {
    let mut text = String::new(alloc);
    for _ in 0..500 {
        text.push_str("a,hi,.b,.")?;
    }
    Ok(text)
}

// Feeds bytes in pieces of this size to a ROUTER.
fn outcome_in_pieces(
    alloc: Global,
    bytes: &[u8],
    size: usize,
    text: &str,
) -> Result<Option<(usize, StreamFault)>, Fail> {
    let mut decoder = Decoder::new(alloc, Role::Router);
    let outcome = feed_all(alloc, &mut decoder, bytes, size, text);
    drop(decoder);
    outcome
}

#[test]
fn pieces(rt: HostRuntime) -> Result<(), Fail> {
    let bytes = long_stream(rt.alloc())?;
    let text = long_text(rt.alloc())?;
    for size in &[1, 7, 4096, 65536] {
        let broken = outcome_in_pieces(rt.alloc(), bytes.as_slice(), *size, text.as_str())?;
        assert!(rt; broken == None, "in pieces of {size}");
    }
    Ok(())
}

// Feeds a handshake and a message in two parts. Returns whether READY was accepted in the first.
fn feed_two(alloc: Global, decoder: &mut Decoder, front: &[u8], back: &[u8]) -> Result<bool, Fail> {
    let (text, fault) = feed(alloc, decoder, front, ",hello,.".as_bytes())?;
    let is_ready = decoder.is_ready();
    let (rest, broken) = feed(alloc, decoder, back, text)?;
    if text.len() == 8 && rest.is_empty() && fault.is_none() && broken.is_none() {
        Ok(is_ready)
    } else {
        Err(Fail::from("another message, or a fault"))
    }
}

fn ready_between(alloc: Global, bytes: &[u8], cut: usize) -> Result<bool, Fail> {
    let (front, back) = bytes.split_at(cut.min(bytes.len()));
    let mut decoder = Decoder::new(alloc, Role::Router);
    let is_ready = feed_two(alloc, &mut decoder, front, back);
    drop(decoder);
    is_ready
}

// Cut once, after each byte of the handshake and of the first message.
#[test]
fn cut_once(rt: HostRuntime) -> Result<(), Fail> {
    let bytes = bytes_of(rt.alloc(), GREETING, DEALER, "01 00 00 05 68 65 6C 6C 6F")?;
    for cut in 0..103 {
        let is_ready = ready_between(rt.alloc(), bytes.as_slice(), cut)?;
        assert!(rt; is_ready == (cut >= 94), "cut at {cut}");
    }
    Ok(())
}

// A message of one frame.
fn one_frame(alloc: Global) -> Result<Frames, AllocError> {
    let mut frames = Frames::new(alloc);
    frames.push(Bytes::copy_of(alloc, b"ab")?)?;
    Ok(frames)
}

// That message, moved in and out.
fn move_frames(rt: &impl Abort, alloc: Global) -> Frames {
    let frames = one_frame(alloc).expect(rt, "memory");
    let mut messages = Messages::new(alloc);
    messages.push(frames).expect(rt, "memory");
    let mut messages = messages.into_vec();
    let last = messages.pop();
    drop(messages);
    last.expect(rt, "a message")
}

// No frames, in the room of others.
fn empty_out(frames: Vec<Bytes>) -> usize {
    let mut frames = Frames::from(frames);
    frames.truncate(0);
    let count = frames.len();
    drop(frames);
    count
}

#[test]
fn conversions(rt: HostRuntime) {
    let frames = move_frames(&rt, rt.alloc());
    assert!(rt; frames.len() == 1);
    let mut frames = frames.into_vec();
    let frame = frames.pop().expect(&rt, "a frame");
    assert!(rt; frame.into_vec().as_slice() == b"ab".as_slice());
    assert!(rt; empty_out(frames) == 0);
}

// A greeting, a DEALER's READY with the identity `me`, three messages, and a flag byte of no frame.
const CONVERSATION: &[u8] =
    b"\xFF\0\0\0\0\0\0\0\x01\x7F\x03\0NULL\0\0\0\0\0\0\0\0\0\0\0\0\0\0\0\0\0\
    \0\0\0\0\0\0\0\0\0\0\0\0\0\0\0\0\0\0\0\0\0\0\0\0\0\0\0\0\0\0\0\
    \x04\x2B\x05READY\x0BSocket-Type\0\0\0\x06DEALER\x08Identity\0\0\0\x02me\
    \x01\x01a\0\x02hi\0\0\x01\0\x01\x05hello\0\x01!\x08";

// Feeds the conversation in pieces of this size. Returns where and why the stream broke, whether the peer's
// READY was accepted, and whether it has its identity.
fn feed_conversation(
    alloc: Global,
    decoder: &mut Decoder,
    size: usize,
) -> Result<(Option<(usize, StreamFault)>, bool, bool), Fail> {
    let text = "a,hi,.,.,hello,!,.";
    let broken = feed_all(alloc, decoder, CONVERSATION, size, text)?;
    Ok((
        broken,
        decoder.is_ready(),
        has_identity(decoder, Some(b"me")),
    ))
}

// Only the feeds here allocate, and if an allocation fails, the result is the same.
fn converse(rt: &impl Abort, alloc: Global, size: usize) -> Result<(), Fail> {
    let mut decoder = Decoder::new(alloc, Role::Router);
    let found = feed_conversation(alloc, &mut decoder, size);
    drop(decoder);
    let broken = Some((CONVERSATION.len(), StreamFault::Flags));
    assert!(rt; found? == (broken, true, true));
    Ok(())
}

// Whole, in two, in sixteens, and byte by byte.
#[test]
fn conversations(rt: HostRuntime) -> Result<(), Fail> {
    for size in [1000, 113, 16, 1] {
        converse(&rt, rt.alloc(), size)?;
    }
    Ok(())
}
