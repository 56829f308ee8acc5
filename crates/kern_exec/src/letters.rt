//! Letters and their envelopes.
ghost use Rattle.std.specs.Prelude.{◌≡◌, [], ◌∷◌, IfOk};
ghost use Rattle.kern_exec.specs.Letters.{published_under, publication, reply_envelope, reply_letter};
ghost use Rattle.kern_exec.specs.Prepared.{IsBusyIdle};

use crate::execution::copy_frames;
use base_text::sequence::{Bytes, Frames, Sequence};
use kern_peers::peers::Peers;
use kern_post::content::{Content, ExecutionState};
use kern_post::letters::Letters;
use kern_post::post::{Envelope, Head, Letter, copy_bytes};
use std::alloc::{AllocError, Global};

/// The envelope of a letter to all connections that subscribed to the topic.
pub fn published_under(
    alloc: Global,
    peers: &Peers,
    parent: &Bytes,
    topic: &str,
) -> Result<Envelope, AllocError>
    ensures { IfOk result (λ e. e ≡ published_under peers.now parent.now topic.now) }
{
    let to = peers.subscribers(alloc, topic)?;
    let parent = copy_bytes(parent)?;
    Ok(Envelope {
        to,
        head: Head::Topic,
        parent,
    })
}

/// A letter to all connections that subscribed to its topic.
pub fn publish(
    alloc: Global,
    peers: &Peers,
    parent: &Bytes,
    content: Content,
) -> Result<Letter, AllocError>
    ensures { IfOk result (λ letter. letter ≡ publication peers.now parent.now content) }
{
    match published_under(alloc, peers, parent, content.topic()) {
        Ok(envelope) => Ok(Letter { envelope, content }),
        Err(_) => {
            drop(content);
            Err(AllocError)
        }
    }
}

/// The envelope of a letter to one connection, with the identities of a request.
pub fn address(
    alloc: Global,
    connection: u32,
    identities: &Frames,
    parent: &Bytes,
) -> Result<Envelope, AllocError>
    ensures { IfOk result (λ e. e ≡ reply_envelope connection identities.now parent.now) }
{
    let to = Sequence::from(vec![in alloc; connection]?);
    let identities = copy_frames(identities)?;
    let parent = copy_bytes(parent)?;
    Ok(Envelope {
        to,
        head: Head::Identities(identities),
        parent,
    })
}

/// A letter to one connection, with the identities of a request.
pub fn reply(
    alloc: Global,
    connection: u32,
    identities: &Frames,
    parent: &Bytes,
    content: Content,
) -> Result<Letter, AllocError>
    ensures { IfOk result (λ letter. letter ≡ reply_letter connection identities.now parent.now content) }
{
    match address(alloc, connection, identities, parent) {
        Ok(envelope) => Ok(Letter { envelope, content }),
        Err(_) => {
            drop(content);
            Err(AllocError)
        }
    }
}

/// Letters of which the first is busy, and idle, which is to be the last.
#[derive(Drop)]
pub struct BusyIdle {
    pub letters: Letters,
    pub idle: Letter,
}

// Letters with busy as the first.
pub(crate) fn busy(alloc: Global, peers: &Peers, header: &Bytes) -> Result<Letters, AllocError>
    ensures { IfOk result (λ letters. letters ≡ publication peers.now header.now
        (Content.Status ExecutionState.Busy) ∷ []) }
{
    let mut letters = Letters::new(alloc)?;
    let busy = publish(alloc, peers, header, Content::Status(ExecutionState::Busy))?;
    letters.push(busy);
    Ok(letters)
}

/// Busy and idle for the request with this header.
pub fn busy_idle(alloc: Global, peers: &Peers, header: &Bytes) -> Result<BusyIdle, AllocError>
    ensures { IfOk result (IsBusyIdle peers.now header.now) }
{
    let letters = busy(alloc, peers, header)?;
    let idle = publish(alloc, peers, header, Content::Status(ExecutionState::Idle))?;
    Ok(BusyIdle { letters, idle })
}
