//! The posts of a session.

use crate::fault::SessionFault;
use crate::members::{are_frames, has_bytes, has_number, has_text, is_number, list};
use kern_post::post::{Head, Post};
use kern_render::content::content_json;
use kern_render::rendering::render;
use serde_json::Value;
use std::alloc::Global;

/// Whether an expected post is addressed to a connection.
pub fn is_to(expected: &Value, connection: u32) -> Result<bool, SessionFault> {
    for other in list(expected, "to")? {
        if is_number(other, u64::from(connection)) {
            return Ok(true);
        }
    }
    Ok(false)
}

/// Compares a post with the expected one. The moment is that of the call that made it.
pub fn compare_post(
    alloc: Global,
    expected: &Value,
    unix_seconds: u64,
    post: &Post,
) -> Result<(), SessionFault> {
    if let Some(part) = different_part(alloc, expected, unix_seconds, post)? {
        return Err(SessionFault::Post {
            number: post.number,
            part,
        });
    }
    Ok(())
}

/// The parts of a post that are compared, beside its number and its moment.
#[derive(Clone, Copy)]
enum Part {
    Type,
    Head,
    Parent,
    Content,
    Frames,
}

const PARTS: [(Part, &str); 5] = [
    (Part::Type, "type"),
    (Part::Head, "head"),
    (Part::Parent, "parent"),
    (Part::Content, "content"),
    (Part::Frames, "frames"),
];

// The name of the first part of a post that is different from the expected one, if there is one.
fn different_part(
    alloc: Global,
    expected: &Value,
    unix_seconds: u64,
    post: &Post,
) -> Result<Option<&'static str>, SessionFault> {
    if !has_number(expected, "number", post.number) {
        return Ok(Some("number"));
    }
    if unix_seconds != post.unix_seconds {
        return Ok(Some("moment"));
    }
    for (part, name) in PARTS {
        if !is_part(alloc, expected, post, part)? {
            return Ok(Some(name));
        }
    }
    Ok(None)
}

fn is_part(alloc: Global, expected: &Value, post: &Post, part: Part) -> Result<bool, SessionFault> {
    match part {
        Part::Type => Ok(has_text(expected, "msg_type", post.letter.content.topic())),
        Part::Head => is_head(alloc, expected, post),
        Part::Parent => Ok(has_bytes(expected, "parent", post.letter.envelope.parent.as_slice())),
        Part::Content => is_content(alloc, expected, post),
        Part::Frames => is_rendered(alloc, expected, post),
    }
}

fn is_head(alloc: Global, expected: &Value, post: &Post) -> Result<bool, SessionFault> {
    match &post.letter.envelope.head {
        Head::Topic => Ok(has_text(expected, "topic", post.letter.content.topic())),
        Head::Identities(identities) => are_frames(alloc, expected, "reply_to", identities),
    }
}

fn is_content(alloc: Global, expected: &Value, post: &Post) -> Result<bool, SessionFault> {
    let Some(expected) = expected.get("content") else {
        return Ok(false);
    };
    let content = content_json(alloc, post.number, &post.letter.content)?;
    let is_same = *expected == content;
    drop(content);
    Ok(is_same)
}

// Expected frames, where the session has them, are signed with the empty key in the session `S`.
fn is_rendered(alloc: Global, expected: &Value, post: &Post) -> Result<bool, SessionFault> {
    if expected.get("frames").is_none() {
        return Ok(true);
    }
    let frames = render(alloc, post, b"", "S")?;
    let are_same = are_frames(alloc, expected, "frames", &frames);
    drop(frames);
    are_same
}
