//! What messages ask for.
ghost use Rattle.std.specs.Prelude.{◌≡◌, IfOk, option_map};
ghost use Rattle.std.specs.Str.{bytes_eq};
ghost use Rattle.lab80_web.specs.Numbers.{number_in, connection_of};
ghost use Rattle.lab80_web.specs.Opening.{request_in};
ghost use Rattle.lab80_web.specs.Items.{channel_named, word_named, join_item, leave_item, subscribe_item};
ghost use Rattle.lab80_web.specs.Items.{message_item, arrival_item, run_item, item_by_word, item_of};

use crate::answer::Refusal;
use base_text::boxed::Boxed;
use base_text::sequence::{Bytes, Frames};
use jup_wire::channel::Channel;
use jup_wire::message::WireFault;
use jup_wire::opening::open_message;
use kern_core::call::{Arrival, Call, Subscription};
use kern_request::reading::request_of;
use kern_request::request::Request;
use std::alloc::{AllocError, Global};

/// What a message asks for.
#[derive(Drop)]
pub enum Item {
    /// One call on the kernel.
    Call(Call),
    /// At most so many Slices, up to the first that isn't answered that there is more.
    Run { unix_seconds: u64, count: u64 },
    /// Nothing that the kernel could do.
    Refused(Refusal),
}

/// The first frame of an item.
#[derive(Clone, Copy)]
enum Word {
    Join,
    Leave,
    Subscribe,
    Message,
    Run,
}

fn is(name: &[u8], word: &[u8]) -> bool
    ensures { result ≡ bytes_eq name.now word.now }
{
    name == word
}

fn word_named(name: &[u8]) -> Option<Word>
    ensures { result ≡ word_named name.now }
{
    if is(name, b"join") {
        Some(Word::Join)
    } else if is(name, b"leave") {
        Some(Word::Leave)
    } else if is(name, b"subscribe") {
        Some(Word::Subscribe)
    } else if is(name, b"message") {
        Some(Word::Message)
    } else if is(name, b"run") {
        Some(Word::Run)
    } else {
        None
    }
}

fn channel_named(name: &[u8]) -> Option<Channel>
    ensures { result ≡ channel_named name.now }
{
    if is(name, b"shell") {
        Some(Channel::Shell)
    } else if is(name, b"control") {
        Some(Channel::Control)
    } else if is(name, b"stdin") {
        Some(Channel::Stdin)
    } else if is(name, b"iopub") {
        Some(Channel::Iopub)
    } else {
        None
    }
}

// The number in a frame: eight bytes, most significant first.
fn number_in(frame: &[u8]) -> Option<u64>
    ensures { result ≡ number_in frame.now }
{
    match <[u8; 8]>::try_from(frame) {
        Ok(bytes) => Some(u64::from_be_bytes(bytes)),
        Err(_) => None,
    }
}

// The connection with a number, if there can be one.
fn connection_of(number: u64) -> Option<u32>
    ensures { result ≡ connection_of number }
{
    if number <= 4_294_967_295 {
        Some(number as u32)
    } else {
        None
    }
}

fn join_item(alloc: Global, fields: &[Bytes]) -> Result<Item, AllocError>
    ensures { IfOk result (λ item. item ≡ join_item fields.now) }
{
    let [channel, identity] = fields else {
        return Ok(Item::Refused(Refusal::NotItem));
    };
    let Some(channel) = channel_named(channel.as_slice()) else {
        return Ok(Item::Refused(Refusal::NotItem));
    };
    let identity = Bytes::copy_of(alloc, identity.as_slice())?;
    let identity = Boxed::new(alloc, identity)?;
    Ok(Item::Call(Call::Join { channel, identity }))
}

fn leave_item(fields: &[Bytes]) -> Item
    ensures { result ≡ leave_item fields.now }
{
    let [connection] = fields else {
        return Item::Refused(Refusal::NotItem);
    };
    let Some(number) = number_in(connection.as_slice()) else {
        return Item::Refused(Refusal::NotItem);
    };
    match connection_of(number) {
        Some(connection) => Item::Call(Call::Leave { connection }),
        None => Item::Refused(Refusal::NoConnection),
    }
}

fn subscribe_item(alloc: Global, fields: &[Bytes]) -> Result<Item, AllocError>
    ensures { IfOk result (λ item. item ≡ subscribe_item fields.now) }
{
    let [connection, prefix, moment] = fields else {
        return Ok(Item::Refused(Refusal::NotItem));
    };
    let Some(number) = number_in(connection.as_slice()) else {
        return Ok(Item::Refused(Refusal::NotItem));
    };
    let Some(unix_seconds) = number_in(moment.as_slice()) else {
        return Ok(Item::Refused(Refusal::NotItem));
    };
    let Some(connection) = connection_of(number) else {
        return Ok(Item::Refused(Refusal::NoConnection));
    };
    let prefix = Bytes::copy_of(alloc, prefix.as_slice())?;
    let subscription = Boxed::new(
        alloc,
        Subscription {
            wants: true,
            prefix,
            unix_seconds,
        },
    )?;
    Ok(Item::Call(Call::Subscribe {
        connection,
        subscription,
    }))
}

fn run_item(fields: &[Bytes]) -> Item
    ensures { result ≡ run_item fields.now }
{
    let [moment, count] = fields else {
        return Item::Refused(Refusal::NotItem);
    };
    match (number_in(moment.as_slice()), number_in(count.as_slice())) {
        (Some(unix_seconds), Some(count)) => Item::Run {
            unix_seconds,
            count,
        },
        _ => Item::Refused(Refusal::NotItem),
    }
}

// The request in these frames, if they are a message.
#[tactic(auto, using(crate::proofs::OpeningLemmas::both_ways))]
fn request_in(
    alloc: Global,
    channel: Channel,
    frames: Frames,
) -> Result<Option<Request>, AllocError>
    ensures { IfOk result (λ request. request ≡ request_in channel frames) }
{
    match open_message(alloc, frames, b"") {
        Ok(message) => {
            let request = request_of(alloc, channel, message)?;
            Ok(Some(request))
        }
        Err(WireFault::OutOfMemory) => Err(AllocError),
        Err(_) => Ok(None),
    }
}

fn arrival_item(
    alloc: Global,
    channel: Channel,
    connection: u32,
    unix_seconds: u64,
    frames: Frames,
) -> Result<Item, AllocError>
    ensures { IfOk result
        (λ item. item ≡ arrival_item connection unix_seconds (request_in channel frames)) }
{
    let Some(request) = request_in(alloc, channel, frames)? else {
        return Ok(Item::Refused(Refusal::NotMessage));
    };
    let arrival = Boxed::new(
        alloc,
        Arrival {
            request,
            unix_seconds,
        },
    )?;
    Ok(Item::Call(Call::Arrive {
        connection,
        arrival,
    }))
}

fn message_item(alloc: Global, fields: Frames) -> Result<Item, AllocError>
    ensures { IfOk result (λ item. item ≡ message_item fields) }
{
    let [channel, connection, moment, ..] = fields.as_slice() else {
        return Ok(Item::Refused(Refusal::NotItem));
    };
    let channel = channel_named(channel.as_slice());
    let number = number_in(connection.as_slice());
    let unix_seconds = number_in(moment.as_slice());
    let (Some(channel), Some(number), Some(unix_seconds)) = (channel, number, unix_seconds) else {
        return Ok(Item::Refused(Refusal::NotItem));
    };
    let Some(connection) = connection_of(number) else {
        return Ok(Item::Refused(Refusal::NoConnection));
    };
    let frames = fields.into_vec().split_off(3)?;
    arrival_item(
        alloc,
        channel,
        connection,
        unix_seconds,
        Frames::from(frames),
    )
}

/// What a message asks for.
#[tactic(auto, unfolding(crate::specs::Items::item_of))]
pub fn read_item(alloc: Global, frames: Frames) -> Result<Item, AllocError>
    ensures { IfOk result (λ item. item ≡ item_of frames) }
{
    let Some((word, fields)) = frames.as_slice().split_first() else {
        return Ok(Item::Refused(Refusal::NotItem));
    };
    match word_named(word.as_slice()) {
        Some(Word::Join) => join_item(alloc, fields),
        Some(Word::Leave) => Ok(leave_item(fields)),
        Some(Word::Subscribe) => subscribe_item(alloc, fields),
        Some(Word::Message) => {
            let fields = frames.into_vec().split_off(1)?;
            message_item(alloc, Frames::from(fields))
        }
        Some(Word::Run) => Ok(run_item(fields)),
        None => Ok(Item::Refused(Refusal::NotItem)),
    }
}
