//! The answers to items.
ghost use Rattle.std.specs.Prelude.{◌≡◌, [], ◌∷◌, IfOk};
ghost use Rattle.lab80_web.specs.Answers.{lacks_memory, answer_of, is_more, answer_frames, refusal_text};

use base_text::sequence::{Bytes, Frames};
use kern_core::call::Reply;
use kern_core::fault::KernelFault;
use std::alloc::{AllocError, Global};

/// Why an item is refused.
#[derive(Clone, Copy, PartialEq, Eq)]
pub enum Refusal {
    /// The channel has sixteen connections, or one with this identity; or the connection has 64
    /// subscriptions.
    Full,
    /// There is no such connection, or what is asked for can't be had on its channel.
    NoConnection,
    /// The frames aren't a Jupyter message.
    NotMessage,
    /// The message isn't an item.
    NotItem,
}

/// The answer to an item.
#[derive(Clone, Copy, PartialEq, Eq)]
pub enum Answer {
    /// A connection has joined, and has this number.
    Joined { connection: u32 },
    Left,
    Subscribed,
    Arrived,
    /// The last Slice did something, and there may be more to do.
    More,
    /// There is nothing to do until something arrives.
    Idle,
    /// The kernel was shut down.
    Ended,
    Refused(Refusal),
}

/// Whether memory ran out for a call.
pub fn lacks_memory(reply: &Result<Reply, KernelFault>) -> bool
    ensures { result ≡ lacks_memory reply.now }
{
    matches!(reply, Err(KernelFault::OutOfMemory))
}

/// The answer to an item whose last call was answered so.
pub fn answer_of(reply: &Result<Reply, KernelFault>) -> Answer
    ensures { result ≡ answer_of reply.now }
{
    match reply {
        Ok(Reply::Joined { connection, .. }) => Answer::Joined {
            connection: *connection,
        },
        Ok(Reply::Left) => Answer::Left,
        Ok(Reply::Subscribed) => Answer::Subscribed,
        Ok(Reply::Arrived) => Answer::Arrived,
        Ok(Reply::More) => Answer::More,
        Ok(Reply::Idle) => Answer::Idle,
        Ok(Reply::Ended) => Answer::Ended,
        Err(KernelFault::Full) => Answer::Refused(Refusal::Full),
        Err(KernelFault::NoConnection) => Answer::Refused(Refusal::NoConnection),
        Ok(Reply::Fetched { .. })
        | Err(KernelFault::OutOfMemory | KernelFault::Lagged { .. } | KernelFault::JournalFull) => {
            Answer::Refused(Refusal::NotItem)
        }
    }
}

impl Answer {
    /// Whether there may be more to do.
    pub fn is_more(self) -> bool
        ensures { result ≡ is_more self }
    {
        matches!(self, Answer::More)
    }
}

fn refusal_text(refusal: Refusal) -> &'static [u8]
    ensures { result.now ≡ refusal_text refusal }
{
    match refusal {
        Refusal::Full => b"full",
        Refusal::NoConnection => b"no connection",
        Refusal::NotMessage => b"not a message",
        Refusal::NotItem => b"not an item",
    }
}

fn one_frame(alloc: Global, word: &[u8]) -> Result<Frames, AllocError>
    ensures { IfOk result (λ frames. frames ≡ word.now ∷ []) }
{
    let word = Bytes::copy_of(alloc, word)?;
    let mut frames = Frames::new(alloc);
    frames.push(word)?;
    Ok(frames)
}

fn two_frames(alloc: Global, word: &[u8], field: &[u8]) -> Result<Frames, AllocError>
    ensures { IfOk result (λ frames. frames ≡ word.now ∷ field.now ∷ []) }
{
    let mut frames = one_frame(alloc, word)?;
    let field = Bytes::copy_of(alloc, field)?;
    frames.push(field)?;
    Ok(frames)
}

/// The frames of an answer.
pub fn answer_frames(alloc: Global, answer: Answer) -> Result<Frames, AllocError>
    ensures { IfOk result (λ frames. frames ≡ answer_frames answer) }
{
    match answer {
        Answer::Joined { connection } => {
            two_frames(alloc, b"joined", &u64::from(connection).to_be_bytes())
        }
        Answer::Left => one_frame(alloc, b"left"),
        Answer::Subscribed => one_frame(alloc, b"subscribed"),
        Answer::Arrived => one_frame(alloc, b"arrived"),
        Answer::More => one_frame(alloc, b"more"),
        Answer::Idle => one_frame(alloc, b"idle"),
        Answer::Ended => one_frame(alloc, b"ended"),
        Answer::Refused(refusal) => two_frames(alloc, b"refused", refusal_text(refusal)),
    }
}
