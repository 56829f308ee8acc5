//! What the first bytes of an item say.
ghost use Rattle.std.specs.Prelude.{◌≡◌, ◌≤◌};
ghost use Rattle.zmtp_wire.specs.Greeting.{broken_by, first_broken};
ghost use Rattle.zmtp_wire.specs.Framing.{kind_of, refusal};
ghost use Rattle.zmtp_wire.specs.Head.{head_of, frame_head, long_size, room_at};

use crate::fault::StreamFault;

/// The part of a stream that is read: the greeting, the handshake, then traffic.
#[derive(Clone, Copy, PartialEq, Eq)]
pub enum Stage {
    Greeting,
    Handshake,
    Traffic,
}

/// Where a frame stands in its message.
#[derive(Clone, Copy)]
pub enum Position {
    /// More frames of the message follow.
    More,
    /// It is the last one.
    Last,
}

/// A frame is a command, or one of a message.
#[derive(Clone, Copy)]
pub enum Kind {
    Command,
    Message(Position),
}

/// What the first bytes of an item say.
#[derive(Clone, Copy)]
pub enum Head {
    /// More bytes are needed.
    Wants,
    /// No item may begin with these bytes.
    Bad(StreamFault),
    /// A whole greeting.
    Greets,
    /// A frame of this kind, the offset of its body, and the size of its body in bytes.
    Sized(Kind, usize, usize),
}

/// The size of a greeting, in bytes.
pub const GREETING_SIZE: usize = 64;

// What a byte at this place of a greeting breaks, if it is wrong.
#[tactic(auto, unfolding(crate::specs::Greeting::broken_by))]
fn broken_at(place: usize, byte: u8) -> Option<StreamFault>
    ensures { result ≡ broken_by place byte }
{
    let (good, cause) = match place {
        0 => (byte == 0xff, StreamFault::Signature),
        9 => (byte == 0x7f, StreamFault::Signature),
        10 => (byte >= 3, StreamFault::Version),
        12 => (byte == b'N', StreamFault::Mechanism),
        13 => (byte == b'U', StreamFault::Mechanism),
        14 | 15 => (byte == b'L', StreamFault::Mechanism),
        16..32 => (byte == 0, StreamFault::Mechanism),
        _ => (true, StreamFault::Signature),
    };
    if good { None } else { Some(cause) }
}

// What the first wrong byte of a greeting breaks, if there is one; the bytes begin at this place of it.
fn first_broken_from(place: usize, bytes: &[u8]) -> Option<StreamFault>
    ensures { result ≡ first_broken place bytes.now }
{
    if place >= 32 {
        return None;
    }
    let (byte, others) = bytes.split_first()?;
    match broken_at(place, *byte) {
        Some(cause) => Some(cause),
        None => first_broken_from(place + 1, others),
    }
}

fn kind_of_flag(flag: u8) -> Option<Kind>
    ensures { result ≡ kind_of flag }
{
    match flag {
        0 | 2 => Some(Kind::Message(Position::Last)),
        1 | 3 => Some(Kind::Message(Position::More)),
        4 | 6 => Some(Kind::Command),
        _ => None,
    }
}

// Why a frame of this kind isn't allowed here, after this many frames of its message.
fn refusal_of(stage: Stage, count: usize, kind: Kind) -> Option<StreamFault>
    ensures { result ≡ refusal stage count kind }
{
    match (stage, kind) {
        (Stage::Greeting, _) => Some(StreamFault::Flags),
        (Stage::Handshake, Kind::Message(_)) => Some(StreamFault::Command),
        (Stage::Handshake, Kind::Command) => None,
        (Stage::Traffic, Kind::Message(Position::Last)) => None,
        (Stage::Traffic, Kind::Message(Position::More)) if count >= 63 => {
            Some(StreamFault::FrameCount)
        },
        (Stage::Traffic, Kind::Message(Position::More)) => None,
        (Stage::Traffic, Kind::Command) if count == 0 => None,
        (Stage::Traffic, Kind::Command) => Some(StreamFault::Command),
    }
}

// The largest number that the bytes of a size so far may spell, with this many still to come.
fn room_with(left: usize) -> u64
    ensures { result ≡ room_at left }
{
    match left {
        0 => 1_048_576,
        1 => 4096,
        2 => 16,
        _ => 0,
    }
}

// What the bytes of a long size say, with this many to come, after the number so far.
fn long_size_from(kind: Kind, left: usize, size: u64, bytes: &[u8]) -> Head
    requires left { left ≤ 8 }
    requires size { size ≤ 1048576 }
    ensures { result ≡ long_size kind left size bytes.now }
{
    if left == 0 {
        return Head::Sized(kind, 9, size as usize);
    }
    let Some((byte, others)) = bytes.split_first() else {
        return Head::Wants;
    };
    let size = size * 256 + u64::from(*byte);
    if size > room_with(left - 1) {
        return Head::Bad(StreamFault::FrameSize);
    }
    long_size_from(kind, left - 1, size, others)
}

fn read_frame_head(stage: Stage, count: usize, bytes: &[u8]) -> Head
    ensures { result ≡ frame_head stage count bytes.now }
{
    let Some((flag, others)) = bytes.split_first() else {
        return Head::Wants;
    };
    let flag = *flag;
    let Some(kind) = kind_of_flag(flag) else {
        return Head::Bad(StreamFault::Flags);
    };
    if let Some(cause) = refusal_of(stage, count, kind) {
        return Head::Bad(cause);
    }
    if flag == 2 || flag == 3 || flag == 6 {
        return long_size_from(kind, 8, 0, others);
    }
    match others.first() {
        None => Head::Wants,
        Some(size) => Head::Sized(kind, 2, *size as usize),
    }
}

/// What the bytes of an item say, after this many frames of its message.
pub fn read_head(stage: Stage, count: usize, bytes: &[u8]) -> Head
    ensures { result ≡ head_of stage count bytes.now }
{
    match stage {
        Stage::Greeting => {
            if let Some(cause) = first_broken_from(0, bytes) {
                return Head::Bad(cause);
            }
            if bytes.len() >= GREETING_SIZE {
                Head::Greets
            } else {
                Head::Wants
            }
        }
        Stage::Handshake => read_frame_head(Stage::Handshake, count, bytes),
        Stage::Traffic => read_frame_head(Stage::Traffic, count, bytes),
    }
}
