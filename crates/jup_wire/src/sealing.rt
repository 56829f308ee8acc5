//! Sealing a message: from JSON to frames.
ghost use Rattle.std.specs.Prelude.{◌≡◌, ◌≤◌, ◌+◌, ◌∷◌, ◌++◌, [], vec_len, vec_capacity, IfOk};
ghost use Rattle.serde_json.specs.View.{view};
ghost use Rattle.jup_wire.specs.Json.{IsTextOf};
ghost use Rattle.jup_wire.specs.Wire.{delimiter};
ghost use Rattle.jup_wire.specs.Seal.{signature_frame, frames_of, AreTexts, IsWrittenFrom, IsSealed, Seals};

use crate::message::{DELIMITER, Parts};
use crate::signature::signature_of;
use base_text::sequence::{Bytes, Frames};
use serde_json::Value;
use std::alloc::{AllocError, Global};

/// What a message is sealed from.
#[derive(Drop)]
pub struct Draft {
    /// None of them may be the delimiter, or no client finds the signature.
    pub identities: Frames,
    /// An object with the texts `msg_id`, `msg_type` and `session`, or no client opens the message.
    pub header: Value,
    /// The header frame of the message that this one replies to, byte for byte, or `{}`.
    pub parent_header: Bytes,
    pub metadata: Value,
    pub content: Value,
}

// The text of a value without blanks, the keys of each object in the order of their bytes.
fn write_json(alloc: Global, value: &Value) -> Result<Bytes, AllocError>
    ensures { IfOk result (λ frame. IsTextOf frame (view value.now)) }
{
    let text = value.to_string(alloc)?;
    Ok(Bytes::from(text.into_bytes()))
}

fn signature_frame(alloc: Global, key: &[u8], parts: &Parts) -> Result<Bytes, AllocError>
    ensures { IfOk result (λ digits. digits ≡ signature_frame key.now parts.now) }
{
    if key.is_empty() {
        return Ok(Bytes::new(alloc));
    }
    let code = signature_of(key, parts);
    Bytes::copy_of(alloc, &code)
}

// The identities and the delimiter, with room for the five frames that follow.
fn begin(alloc: Global, identities: Frames) -> Result<Vec<Bytes>, AllocError>
    ensures items { IfOk result (λ frames. frames.items ≡ identities ++ delimiter ∷ []) }
    ensures room { IfOk result (λ frames. vec_len frames + 5 ≤ vec_capacity frames) }
{
    let delimiter = Bytes::copy_of(alloc, DELIMITER)?;
    let mut frames = identities.into_vec();
    frames.reserve(6)?;
    frames.push_reserved(delimiter);
    Ok(frames)
}

fn join(alloc: Global, parts: Parts, digits: Bytes) -> Result<Frames, AllocError>
    ensures { IfOk result (λ frames. frames ≡ frames_of parts digits) }
{
    let Parts {
        identities,
        header,
        parent_header,
        metadata,
        content,
    } = parts;
    let mut frames = begin(alloc, identities)?;
    frames.push_reserved(digits);
    frames.push_reserved(header);
    frames.push_reserved(parent_header);
    frames.push_reserved(metadata);
    frames.push_reserved(content);
    Ok(Frames::from(frames))
}

// The texts of the header, of the metadata and of the content.
fn write_values(alloc: Global, draft: &Draft) -> Result<(Bytes, Bytes, Bytes), AllocError>
    ensures { IfOk result (λ texts. AreTexts draft.now texts.0 texts.1 texts.2) }
{
    let header = write_json(alloc, &draft.header)?;
    let metadata = write_json(alloc, &draft.metadata)?;
    let content = write_json(alloc, &draft.content)?;
    Ok((header, metadata, content))
}

// The parts of a draft that are sent unchanged: the identities and the parent header. Its values are dropped.
fn sent_as_is(draft: Draft) -> (Frames, Bytes)
    ensures { (result.0 ≡ draft.identities) × (result.1 ≡ draft.parent_header) }
{
    let Draft {
        identities,
        header,
        parent_header,
        metadata,
        content,
    } = draft;
    drop(header);
    drop(metadata);
    drop(content);
    (identities, parent_header)
}

fn parts_of(alloc: Global, draft: Draft) -> Result<Parts, AllocError>
    ensures { IfOk result (IsWrittenFrom draft) }
{
    let texts = write_values(alloc, &draft);
    let (identities, parent_header) = sent_as_is(draft);
    let (header, metadata, content) = texts?;
    Ok(Parts {
        identities,
        header,
        parent_header,
        metadata,
        content,
    })
}

fn seal(alloc: Global, draft: Draft, key: &[u8]) -> Result<Frames, AllocError>
    ensures { IfOk result (IsSealed key.now draft) }
{
    let parts = parts_of(alloc, draft)?;
    let digits = signature_frame(alloc, key, &parts)?;
    join(alloc, parts, digits)
}

/// Seals a message with a key: identities, delimiter, signature, header, parent header, metadata and content,
/// with no buffers. With an empty key, the signature is empty. JSON is written without blanks, the keys of
/// each object in the order of their bytes.
pub fn seal_message(alloc: Global, draft: Draft, key: &[u8]) -> Result<Frames, AllocError>
    ensures { Seals key.now draft result }
{
    seal(alloc, draft, key)
}
