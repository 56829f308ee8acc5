//! Posts, and the letters and envelopes of which they are made.
ghost use Rattle.std.specs.Prelude.{◌≡◌, IfOk};

use crate::content::Content;
use base_text::sequence::{Bytes, Frames, Sequence};
use std::alloc::AllocError;

/// The frames before the delimiter: the topic, which is the type, or the identities of a request.
#[derive(Clone, Drop)]
pub enum Head {
    Topic,
    Identities(Frames),
}

/// All of a letter but its content.
#[derive(Drop)]
pub struct Envelope {
    /// The connections that get it.
    pub to: Sequence<u32>,
    pub head: Head,
    /// The parent header: the header frame of the request, or `{}`.
    pub parent: Bytes,
}

/// A message that has no number yet.
#[derive(Drop)]
pub struct Letter {
    pub envelope: Envelope,
    pub content: Content,
}

/// A letter that was posted.
pub struct Post {
    /// Its number, from 1.
    pub number: u64,
    /// When it was posted, in seconds since 1970.
    pub unix_seconds: u64,
    pub letter: Letter,
}

// Written out so that posts are dropped by one function, here and in the crates above.
impl Drop for Post {
    fn drop(self) {
        let Self {
            number: _,
            unix_seconds: _,
            letter: _,
        } = self;
    }
}

/// Posts in the order of their numbers.
pub type Posts = Sequence<Post>;

impl Envelope {
    /// A copy.
    pub fn copy(&self) -> Result<Envelope, AllocError>
        ensures { IfOk result (λ copy. copy ≡ self.now) }
    {
        let to = copy_connections(&self.to)?;
        let head = copy_head(&self.head)?;
        let parent = copy_bytes(&self.parent)?;
        Ok(Envelope { to, head, parent })
    }
}

impl Letter {
    /// A copy.
    pub fn copy(&self) -> Result<Letter, AllocError>
        ensures { IfOk result (λ copy. copy ≡ self.now) }
    {
        let envelope = self.envelope.copy()?;
        let content = self.content.copy()?;
        Ok(Letter { envelope, content })
    }
}

impl Post {
    /// A copy.
    pub fn copy(&self) -> Result<Post, AllocError>
        ensures { IfOk result (λ copy. copy ≡ self.now) }
    {
        let letter = self.letter.copy()?;
        Ok(Post {
            number: self.number,
            unix_seconds: self.unix_seconds,
            letter,
        })
    }
}

fn copy_connections(connections: &Sequence<u32>) -> Result<Sequence<u32>, AllocError>
    ensures { IfOk result (λ copy. copy ≡ connections.now) }
{
    connections.clone()
}

fn copy_head(head: &Head) -> Result<Head, AllocError>
    ensures { IfOk result (λ copy. copy ≡ head.now) }
{
    head.clone()
}

/// A copy of bytes.
pub fn copy_bytes(bytes: &Bytes) -> Result<Bytes, AllocError>
    ensures { IfOk result (λ copy. copy ≡ bytes.now) }
{
    bytes.clone()
}
