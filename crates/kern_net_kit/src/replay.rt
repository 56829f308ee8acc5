//! Making the calls of a journal again on a new kernel, one by one.

use crate::bytes::GREETING;
use crate::gates::MOMENT;
use crate::script::{Ask, Scripted, ready_on};
use jup_wire::channel::Channel;
use kern_core::call::{Call, Reply};
use kern_core::fault::KernelFault;
use kern_core::kernel::Kernel;
use kern_desk::desks::MOST_ENTRIES;
use kern_desk::seated::Seated;
use kern_net::pump_out::NUMBERS_OF_A_FETCH;
use kern_net::stream::stream_of;
use kern_test_kit::actions::{Action, arrive_call, call_of, is_call, request_sent};
use std::alloc::{AllocError, Global};

/// Posts to a guest.
#[derive(Clone, Copy, PartialEq, Eq)]
pub enum Posts {
    /// Those that its own Fetches give.
    Fetched,
    /// All that the kernel keeps until the guest leaves.
    All,
}

/// Why a journal's calls can't be made again.
#[derive(Clone, Copy)]
pub enum ReplayFault {
    OutOfMemory,
    /// The entry at this place is another call than its guest makes next.
    OtherCall(usize),
    /// The journal has more than a million entries.
    Long,
    /// There is no such guest.
    NoGuest,
}

impl From<AllocError> for ReplayFault {
    fn from(_error: AllocError) -> ReplayFault {
        ReplayFault::OutOfMemory
    }
}

/// The journal of guests with these scripts, and which posts to which of them are looked for. A guest's
/// reader has twice its place as its seat, its writer the seat after that.
#[derive(Clone, Copy)]
pub struct Replay<'a, S: Scripted> {
    pub seated: &'a Seated,
    pub scripts: &'a [S],
    pub guest: usize,
    pub posts: Posts,
}

// The most guests, entries of a journal, and Fetches of one guest.
const MOST_GUESTS: usize = 8;

const MOST: usize = 1_000_000;

const MOST_FETCHES: usize = 1_000;

// A call of a journal, as plain data.
#[derive(Clone, Copy)]
enum Entry {
    Plain(Action),
    Request(u32, Channel, Ask),
}

// The call of a guest as plain data. A request must be the guest's next one.
fn entry_of<S: Scripted>(call: &Call, guest: Option<&S>, asked: usize) -> Option<Entry> {
    match call {
        Call::Join { .. } => Some(Entry::Plain(Action::Join(guest?.channel()))),
        Call::Leave { connection } => Some(Entry::Plain(Action::Leave(*connection))),
        Call::Subscribe { connection, .. } => Some(Entry::Plain(Action::Subscribe(*connection))),
        Call::Arrive { connection, .. } => {
            let guest = guest?;
            let ask = guest.asks().get(asked)?;
            Some(Entry::Request(*connection, guest.channel(), *ask))
        }
        Call::Slice { .. } => Some(Entry::Plain(Action::Slice)),
        Call::Fetch { connection, from } => Some(Entry::Plain(Action::Fetch(*connection, *from))),
    }
}

// How many requests of a guest come before this one. The next time it is one more.
fn count_up(asked: &mut [usize; MOST_GUESTS], guest: usize) {
    if let Some(count) = asked.get_mut(guest) {
        *count = count.saturating_add(1);
    }
}

// Whether a call is this one. A request's content is checked by the answer to it.
fn is_entry(call: &Call, entry: Entry) -> bool {
    match entry {
        Entry::Plain(action) => is_call(call, action, MOMENT),
        Entry::Request(..) => true,
    }
}

// An entry of the journal as plain data, with its guest; None behind the last.
fn entry_at<S: Scripted>(
    replay: &Replay<'_, S>,
    place: usize,
    asked: &mut [usize; MOST_GUESTS],
) -> Result<Option<(usize, Entry)>, ReplayFault> {
    let Some((seat, call)) = replay.seated.entry(place) else {
        return Ok(None);
    };
    let guest = seat as usize / 2;
    let next = asked.get(guest).copied().unwrap_or(0);
    let Some(entry) = entry_of(call, replay.scripts.get(guest), next) else {
        return Err(ReplayFault::OtherCall(place));
    };
    if !is_entry(call, entry) {
        return Err(ReplayFault::OtherCall(place));
    }
    if matches!(entry, Entry::Request(..)) {
        count_up(asked, guest);
    }
    Ok(Some((guest, entry)))
}

fn call_at(alloc: Global, entry: Entry) -> Result<Call, AllocError> {
    match entry {
        Entry::Plain(action) => call_of(alloc, action, MOMENT),
        Entry::Request(connection, channel, Ask(id, kind, content)) => {
            let request = request_sent(alloc, channel, id, kind, content)?;
            arrive_call(alloc, connection, request, MOMENT)
        }
    }
}

// Adds the messages of the posts in an answer, and returns the number to go on at.
fn add_posts(
    alloc: Global,
    answer: &Result<Reply, KernelFault>,
    sent: &mut Vec<u8>,
) -> Result<u64, ReplayFault> {
    match answer {
        Ok(Reply::Fetched { posts, next, .. }) => {
            let bytes = stream_of(alloc, posts.as_slice(), b"", "S")?;
            sent.extend_from_slice(bytes.as_slice())?;
            Ok(*next)
        }
        Err(KernelFault::OutOfMemory) => Err(ReplayFault::OutOfMemory),
        _ => Ok(0),
    }
}

// Makes a Fetch, adds the messages of its posts, and returns the number to go on at.
fn fetch(
    alloc: Global,
    kernel: &mut Kernel,
    fetched: (u32, u64),
    sent: &mut Vec<u8>,
) -> Result<u64, ReplayFault> {
    let (connection, from) = fetched;
    let answer = kernel.act(Call::Fetch { connection, from });
    let next = add_posts(alloc, &answer, sent);
    drop(answer);
    next
}

// Adds the messages of all posts to a connection.
fn add_all(
    alloc: Global,
    kernel: &mut Kernel,
    connection: u32,
    sent: &mut Vec<u8>,
) -> Result<(), ReplayFault> {
    let mut from = 1u64;
    for _ in 0..MOST_FETCHES {
        let next = fetch(alloc, kernel, (connection, from), sent)?;
        if next < from.saturating_add(NUMBERS_OF_A_FETCH) {
            return Ok(());
        }
        from = next;
    }
    Err(ReplayFault::Long)
}

// Makes a call. The posts that it gives aren't looked for.
fn make(alloc: Global, kernel: &mut Kernel, entry: Entry) -> Result<(), ReplayFault> {
    let answer = kernel.act(call_at(alloc, entry)?);
    let wants_memory = matches!(answer, Err(KernelFault::OutOfMemory));
    drop(answer);
    if wants_memory {
        return Err(ReplayFault::OutOfMemory);
    }
    Ok(())
}

// Makes a call of the guest whose posts are looked for, and adds those that it gives, or all before it
// leaves.
fn make_own(
    alloc: Global,
    kernel: &mut Kernel,
    entry: Entry,
    posts: Posts,
    sent: &mut Vec<u8>,
) -> Result<(), ReplayFault> {
    match (entry, posts) {
        (Entry::Plain(Action::Fetch(connection, from)), Posts::Fetched) => {
            fetch(alloc, kernel, (connection, from), sent)?;
            Ok(())
        }
        (Entry::Plain(Action::Leave(connection)), Posts::All) => {
            add_all(alloc, kernel, connection, sent)?;
            make(alloc, kernel, entry)
        }
        _ => make(alloc, kernel, entry),
    }
}

fn make_all<S: Scripted>(
    alloc: Global,
    kernel: &mut Kernel,
    replay: &Replay<'_, S>,
    sent: &mut Vec<u8>,
) -> Result<(), ReplayFault> {
    let mut asked = [0usize; MOST_GUESTS];
    for place in 0..MOST {
        let Some((guest, entry)) = entry_at(replay, place, &mut asked)? else {
            return Ok(());
        };
        if guest == replay.guest {
            make_own(alloc, kernel, entry, replay.posts, sent)?;
        } else {
            make(alloc, kernel, entry)?;
        }
    }
    Err(ReplayFault::Long)
}

fn handshake(alloc: Global, channel: Channel) -> Result<Vec<u8>, AllocError> {
    let mut bytes = GREETING.to_vec(alloc)?;
    bytes.extend_from_slice(ready_on(channel))?;
    Ok(bytes)
}

/// The kernel's handshake with a guest, and what the calls of a journal give for it if they are made again on
/// a new kernel.
pub fn sent_to<S: Scripted>(alloc: Global, replay: &Replay<'_, S>) -> Result<Vec<u8>, ReplayFault> {
    let Some(guest) = replay.scripts.get(replay.guest) else {
        return Err(ReplayFault::NoGuest);
    };
    let mut sent = handshake(alloc, guest.channel())?;
    let mut kernel = Kernel::new(alloc, MOST_ENTRIES)?;
    let made = make_all(alloc, &mut kernel, replay, &mut sent);
    drop(kernel);
    made?;
    Ok(sent)
}
