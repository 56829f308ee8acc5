//! The frames of posts.
ghost use Rattle.std.specs.Prelude.{◌≡◌, [], ◌∷◌, IfOk, min};
ghost use Rattle.jup_wire.specs.Dates.{IsDate, last_moment};
ghost use Rattle.kern_render.specs.Rendering.{head_frames, IsRendered};
ghost use Rattle.kern_render.specs.Drafts.{IsDraftOf};

use crate::content::content_json;
use base_text::sequence::{Bytes, Frames};
use base_text::text::Text;
use jup_wire::date::{LAST_MOMENT, date_text};
use jup_wire::header::{empty_object, header_json};
use jup_wire::sealing::{Draft, seal_message};
use kern_post::content::Content;
use kern_post::post::{Head, Post, copy_bytes};
use std::alloc::{AllocError, Global};

fn one_frame(alloc: Global, text: &str) -> Result<Frames, AllocError>
    ensures { IfOk result (λ frames. frames ≡ text.now ∷ []) }
{
    let frame = Bytes::copy_of(alloc, text.as_bytes())?;
    let mut frames = Frames::new(alloc);
    frames.push(frame)?;
    Ok(frames)
}

fn head_frames(alloc: Global, head: &Head, content: &Content) -> Result<Frames, AllocError>
    ensures { IfOk result (λ frames. frames ≡ head_frames head.now content.now) }
{
    match head {
        Head::Topic => one_frame(alloc, content.topic()),
        Head::Identities(frames) => frames.clone(),
    }
}

fn draft_of(alloc: Global, post: &Post, date: &str, session: &str) -> Result<Draft, AllocError>
    ensures { IfOk result (IsDraftOf date.now session.now post.now) }
{
    let content = &post.letter.content;
    let identities = head_frames(alloc, &post.letter.envelope.head, content)?;
    let header = header_json(alloc, date, session, post.number, content.topic())?;
    let parent_header = copy_bytes(&post.letter.envelope.parent)?;
    let metadata = empty_object(alloc)?;
    let content = content_json(alloc, post.number, content)?;
    Ok(Draft {
        identities,
        header,
        parent_header,
        metadata,
        content,
    })
}

fn date_of(alloc: Global, post: &Post) -> Result<Text, AllocError>
    ensures { IfOk result (IsDate (min post.now.unix_seconds last_moment)) }
{
    date_text(alloc, post.unix_seconds.min(LAST_MOMENT))
}

/// The frames of a post, signed with a key, in the session with this name: the topic, which is the type of
/// the content, or the identities of the request; the delimiter, the signature, the header, the parent
/// header, empty metadata, and the content (Jupyter messaging, "The Wire Protocol", "Message header"). With
/// an empty key the signature is empty. The `msg_id` is the name of the session, `_` and the number of the
/// post. A moment later than 2100-01-01T00:00:00Z gets that date.
pub fn render(alloc: Global, post: &Post, key: &[u8], session: &str) -> Result<Frames, AllocError>
    ensures { IfOk result (IsRendered key.now session.now post.now) }
{
    let date = date_of(alloc, post)?;
    let draft = draft_of(alloc, post, date.as_str(), session)?;
    seal_message(alloc, draft, key)
}
