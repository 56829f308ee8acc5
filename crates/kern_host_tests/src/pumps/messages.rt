//! Messages as bytes, by the rules of RFC 23 and of Jupyter messaging 5.4. They are made of parts that
//! several messages share: the frames up to the signature, and the four after it. A frame is a byte of flags,
//! with 1 if more frames follow; its size in one byte, or in eight with flag 2; and its bytes.

use kern_net_kit::bytes::{DEALER, SUB};
use std::alloc::Global;
use std::process::Abort;

// What the kernel writes first on shell and control.
const ROUTER: &[u8] = b"\xFF\0\0\0\0\0\0\0\0\x7F\x03\0NULL\
    \0\0\0\0\0\0\0\0\0\0\0\0\0\0\0\0\0\0\0\0\0\0\0\0\0\0\0\0\0\0\0\0\0\0\0\0\0\0\0\0\0\0\0\0\0\0\0\0\
    \x04\x1C\x05READY\x0BSocket-Type\0\0\0\x06ROUTER";

// What it writes first on iopub.
const PUB: &[u8] = b"\xFF\0\0\0\0\0\0\0\0\x7F\x03\0NULL\
    \0\0\0\0\0\0\0\0\0\0\0\0\0\0\0\0\0\0\0\0\0\0\0\0\0\0\0\0\0\0\0\0\0\0\0\0\0\0\0\0\0\0\0\0\0\0\0\0\
    \x04\x19\x05READY\x0BSocket-Type\0\0\0\x03PUB";

// The first frames of a message that isn't signed.
const UNSIGNED: &[u8] = b"\x01\x09<IDS|MSG>\x01\0";

// What comes after the signature of a kernel_info_request.
const INFO: &[u8] =
    b"\x01\x3F{\"msg_id\":\"r_1\",\"msg_type\":\"kernel_info_request\",\"session\":\"r\"}\
    \x01\x02{}\x01\x02{}\0\x02{}";

// What comes after the signature of a shutdown_request.
const SHUTDOWN: &[u8] =
    b"\x01\x3C{\"msg_id\":\"r_2\",\"msg_type\":\"shutdown_request\",\"session\":\"r\"}\
    \x01\x02{}\x01\x02{}\0\x02{}";

// What comes after the signature of a request of an unknown type.
const UNKNOWN: &[u8] =
    b"\x01\x3B{\"msg_id\":\"r_3\",\"msg_type\":\"unknown_request\",\"session\":\"r\"}\
    \x01\x02{}\x01\x02{}\0\x02{}";

// The same of an execute_request, of an interrupt_request, and of a debug_request for the threads and for a
// reset of the board.
const EXECUTE: &[u8] =
    b"\x01\x3B{\"msg_id\":\"r_4\",\"msg_type\":\"execute_request\",\"session\":\"r\"}\
    \x01\x02{}\x01\x02{}\0\x0B{\"code\":\"\"}";

const INTERRUPT: &[u8] =
    b"\x01\x3D{\"msg_id\":\"r_5\",\"msg_type\":\"interrupt_request\",\"session\":\"r\"}\
    \x01\x02{}\x01\x02{}\0\x02{}";

const THREADS: &[u8] =
    b"\x01\x39{\"msg_id\":\"r_6\",\"msg_type\":\"debug_request\",\"session\":\"r\"}\
    \x01\x02{}\x01\x02{}\0\x2E{\"command\":\"threads\",\"seq\":1,\"type\":\"request\"}";

const BOARD_RESET: &[u8] =
    b"\x01\x39{\"msg_id\":\"r_7\",\"msg_type\":\"debug_request\",\"session\":\"r\"}\
    \x01\x02{}\x01\x02{}\0\x31{\"command\":\"boardReset\",\"seq\":1,\"type\":\"request\"}";

/// The key of RFC 2104's second example.
pub const KEY: &[u8] = b"Jefe";

// That example: these four frames together are its text.
const EXAMPLE: &[u8] = b"\x01\x09<IDS|MSG>\
    \x01\x405bdcc146bf60754e6a042426089575c75a003f089d2739839dec58b964ec3843\
    \x01\x0Bwhat do ya \x01\x05want \x01\x04for \0\x08nothing?";

// The same with another signature.
const FORGED_EXAMPLE: &[u8] = b"\x01\x09<IDS|MSG>\
    \x01\x405bdcc146bf60754e6a042426089575c75a003f089d2739839dec58b964ec3844\
    \x01\x0Bwhat do ya \x01\x05want \x01\x04for \0\x08nothing?";

// The first frames of the kernel_info_request under the key; the signature is what Python's hmac gives.
const SIGNED: &[u8] = b"\x01\x09<IDS|MSG>\
    \x01\x40c8a74e75019d6a74a2990240b897b9362af7b291b6269c5eff3d62cb1d345ed9";

// The same with another signature.
const FORGED: &[u8] = b"\x01\x09<IDS|MSG>\
    \x01\x40c8a74e75019d6a74a2990240b897b9362af7b291b6269c5eff3d62cb1d345ed8";

// The header of the reply to a kernel_info_request, where it is the kernel's second post.
const INFO_REPLY_2: &[u8] = b"\x01\x7F{\"date\":\"2000-02-29T00:00:00Z\",\"msg_id\":\"S_2\",\
    \"msg_type\":\"kernel_info_reply\",\"session\":\"S\",\"username\":\"kernel\",\"version\":\"5.4\"}";

// The same, where it is the fifth.
const INFO_REPLY_5: &[u8] = b"\x01\x7F{\"date\":\"2000-02-29T00:00:00Z\",\"msg_id\":\"S_5\",\
    \"msg_type\":\"kernel_info_reply\",\"session\":\"S\",\"username\":\"kernel\",\"version\":\"5.4\"}";

// What comes after the header of such a reply. Its last frame has more than 255 bytes.
const INFO_REPLY: &[u8] =
    b"\x01\x3F{\"msg_id\":\"r_1\",\"msg_type\":\"kernel_info_request\",\"session\":\"r\"}\
    \x01\x02{}\x02\0\0\0\0\0\0\x01\x02\
    {\"banner\":\"Intel 8080 laboratory\",\"debugger\":true,\"help_links\":[],\
    \"implementation\":\"lab80\",\"implementation_version\":\"1.0\",\
    \"language_info\":{\"file_extension\":\".asm\",\"mimetype\":\"text/x-asm\",\"name\":\"i8080\",\
    \"version\":\"1.0\"},\"protocol_version\":\"5.4\",\"status\":\"ok\"}";

// What comes after the signature of the reply to a shutdown_request, where it is the fifth post.
const SHUTDOWN_REPLY_5: &[u8] = b"\x01\x7C{\"date\":\"2000-02-29T00:00:00Z\",\"msg_id\":\"S_5\",\
    \"msg_type\":\"shutdown_reply\",\"session\":\"S\",\"username\":\"kernel\",\"version\":\"5.4\"}\
    \x01\x3C{\"msg_id\":\"r_2\",\"msg_type\":\"shutdown_request\",\"session\":\"r\"}\
    \x01\x02{}\0\x1F{\"restart\":false,\"status\":\"ok\"}";

// What a subscriber is sent first.
const STATUS: &[u8] = b"\x01\x06status\x01\x09<IDS|MSG>\x01\0\
    \x01\x74{\"date\":\"2000-02-29T00:00:00Z\",\"msg_id\":\"S_1\",\"msg_type\":\"status\",\
    \"session\":\"S\",\"username\":\"kernel\",\"version\":\"5.4\"}\
    \x01\x02{}\x01\x02{}\0\x1A{\"execution_state\":\"idle\"}";

/// A part of what a client or the kernel writes.
#[derive(Clone, Copy)]
pub enum Part {
    Dealer,
    Sub,
    Router,
    Pub,
    Unsigned,
    Info,
    Shutdown,
    Unknown,
    Execute,
    Interrupt,
    Threads,
    BoardReset,
    Example,
    ForgedExample,
    Signed,
    Forged,
    InfoReply2,
    InfoReply5,
    InfoReply,
    ShutdownReply5,
    Status,
    // What a subscriber sends after READY.
    WantsAll,
    WantsStatus,
    WantsStream,
    WantsNoMore,
    NoSubscription,
    Empty,
    TwoFrames,
    // What breaks a stream, and a frame that isn't a message.
    BadFlags,
    BadSize,
    BadCommand,
    Letter,
}

impl Part {
    fn bytes(self) -> &'static [u8] {
        match self {
            Part::Dealer => DEALER,
            Part::Sub => SUB,
            Part::Router => ROUTER,
            Part::Pub => PUB,
            Part::Unsigned => UNSIGNED,
            Part::Info => INFO,
            Part::Shutdown => SHUTDOWN,
            Part::Unknown => UNKNOWN,
            Part::Execute => EXECUTE,
            Part::Interrupt => INTERRUPT,
            Part::Threads => THREADS,
            Part::BoardReset => BOARD_RESET,
            Part::Example => EXAMPLE,
            Part::ForgedExample => FORGED_EXAMPLE,
            Part::Signed => SIGNED,
            Part::Forged => FORGED,
            Part::InfoReply2 => INFO_REPLY_2,
            Part::InfoReply5 => INFO_REPLY_5,
            Part::InfoReply => INFO_REPLY,
            Part::ShutdownReply5 => SHUTDOWN_REPLY_5,
            Part::Status => STATUS,
            Part::WantsAll => b"\0\x01\x01",
            Part::WantsStatus => b"\0\x07\x01status",
            Part::WantsStream => b"\0\x07\x01stream",
            Part::WantsNoMore => b"\0\x01\0",
            Part::NoSubscription => b"\0\x01\x02",
            Part::Empty => b"\0\0",
            Part::TwoFrames => b"\x01\x01\x01\0\0",
            Part::BadFlags => b"\x08",
            Part::BadSize => b"\x02\x80",
            Part::BadCommand => b"\x01\0\x04",
            Part::Letter => b"\0\x01a",
        }
    }
}

/// What a client on shell writes that sends two kernel_info_requests.
pub const TWO: &[Part] = &[
    Part::Dealer,
    Part::Unsigned,
    Part::Info,
    Part::Unsigned,
    Part::Info,
];

/// The bytes of some parts.
pub fn bytes_of<R: Abort>(rt: &R, alloc: Global, parts: &[Part]) -> Vec<u8> {
    let mut bytes = Vec::new(alloc);
    for part in parts {
        bytes
            .extend_from_slice(part.bytes())
            .expect(rt, "memory for bytes");
    }
    bytes
}

// Whether bytes begin with a part, or are a prefix of the part.
fn is_met(bytes: &[u8], part: &[u8]) -> bool {
    bytes.starts_with(part) || part.starts_with(bytes)
}

/// Whether bytes are a prefix of some parts, one after the other.
pub fn is_front(bytes: &[u8], parts: &[Part]) -> bool {
    let mut rest = bytes;
    for part in parts {
        let part = part.bytes();
        if !is_met(rest, part) {
            return false;
        }
        let (_, behind) = rest.split_at(rest.len().min(part.len()));
        rest = behind;
    }
    rest.is_empty()
}
