//! The bytes that posts are written as.
ghost use Rattle.std.specs.Prelude.{◌≡◌, ◌∷◌, ◌++◌, IfOk, OnOk};
ghost use Rattle.kern_net.specs.Streams.{IsMessageOf, IsStreamOf};

use base_text::sequence::Bytes;
use kern_post::post::Post;
use kern_render::rendering::render;
use std::alloc::{AllocError, Global};
use zmtp_wire::writing::put_message;

#[tactic(auto, using(crate::proofs::StreamLemmas::has_frames))]
fn message_of(alloc: Global, post: &Post, key: &[u8], session: &str) -> Result<Bytes, AllocError>
    ensures { IfOk result (IsMessageOf key.now session.now post.now) }
{
    let frames = render(alloc, post, key, session)?;
    put_message(alloc, frames.as_slice())
}

/// The ZMTP messages of posts, one after the other, signed with a key and in a session.
pub fn stream_of(
    alloc: Global,
    posts: &[Post],
    key: &[u8],
    session: &str,
) -> Result<Vec<u8>, AllocError>
    ensures { IfOk result (λ bytes. IsStreamOf key.now session.now posts.now bytes.items) }
{
    let mut out = Vec::new(alloc);
    for post in posts {
        let message = message_of(alloc, post, key, session)?;
        out.extend_from_slice(message.as_slice())?;
    }
    Ok(out)
}
