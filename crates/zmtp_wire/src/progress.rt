//! A feed on its way through its bytes, item by item, until none is whole.
ghost use Rattle.std.specs.Prelude.{◌≡◌, OnOk, OnErr, IfOk, option_copied};
ghost use Rattle.zmtp_wire.specs.Stream.{with_frame};
ghost use Rattle.zmtp_wire.specs.declared.head.Position.{Position};
ghost use Rattle.zmtp_wire.specs.Progress.{WhateverBefore, TakesItem, TakesItems, TakesCommand, TakesBody};
ghost use Rattle.zmtp_wire.specs.Progress.{SameMessages, FirstFrames};

use crate::command::{is_skipped, read_ready};
use crate::fault::StreamFault;
use crate::head::{GREETING_SIZE, Head, Kind, Position, Stage, read_head};
use crate::role::Role;
use base_text::sequence::{Bytes, Frames};
use std::alloc::{AllocError, Global};
use std::mem;

/// The peer's READY, which was accepted.
#[derive(Drop)]
pub struct Ready {
    pub identity: Option<Bytes>,
}

/// The state of a feed.
#[derive(Drop)]
pub struct Progress {
    pub stage: Stage,
    /// The READY that was accepted in this feed.
    pub accepted: Option<Ready>,
    /// The frames of a message that isn't complete yet.
    pub frames: Frames,
    /// The messages that this feed has completed.
    pub messages: Vec<Frames>,
}

/// What is at the front of some bytes.
#[derive(Drop)]
pub enum Taken {
    /// An item of this many bytes.
    Item(usize),
    /// No whole item.
    Partial,
    /// An item that breaks the stream.
    Broken(StreamFault),
}

// Adds the last frame of a message, which completes it.
fn add_last(alloc: Global, progress: &mut Progress, frame: Bytes) -> Result<(), AllocError>
    ensures ok { OnOk result (WhateverBefore progress.old progress.new
        (λ old new. new ≡ with_frame old Position.Last frame)) }
    ensures err { OnErr result (SameMessages progress.old progress.new) }
{
    progress.messages.reserve(1)?;
    progress.frames.push(frame)?;
    let whole = mem::replace(&mut progress.frames, Frames::new(alloc));
    progress.messages.push_reserved(whole);
    Ok(())
}

// Adds a whole frame of a message.
fn add_frame(
    alloc: Global,
    progress: &mut Progress,
    position: Position,
    body: &[u8],
) -> Result<(), AllocError>
    ensures ok { OnOk result (WhateverBefore progress.old progress.new
        (λ old new. new ≡ with_frame old position body.now)) }
    ensures err { OnErr result (SameMessages progress.old progress.new) }
{
    let frame = Bytes::copy_of(alloc, body)?;
    match position {
        Position::More => {
            progress.frames.push(frame)?;
            Ok(())
        }
        Position::Last => add_last(alloc, progress, frame),
    }
}

fn copy_identity(alloc: Global, identity: Option<&[u8]>) -> Result<Option<Bytes>, AllocError>
    ensures { IfOk result (λ copied. copied ≡ option_copied identity.entry) }
{
    match identity {
        Some(identity) => {
            let copied = Bytes::copy_of(alloc, identity)?;
            Ok(Some(copied))
        }
        None => Ok(None),
    }
}

// Takes in a command's content, or returns why it is refused.
fn take_command(
    alloc: Global,
    role: Role,
    progress: &mut Progress,
    body: &[u8],
) -> Result<Option<StreamFault>, AllocError>
    requires { progress.old.stage ≡ Stage.Greeting → ⊥ }
    ensures ok { IfOk result (λ cause. TakesCommand role body.now cause progress.old progress.new) }
    ensures err { OnErr result (progress.new ≡ progress.old) }
{
    match progress.stage {
        Stage::Handshake => match read_ready(role, body) {
            Ok(identity) => {
                let identity = copy_identity(alloc, identity)?;
                progress.accepted = Some(Ready { identity });
                progress.stage = Stage::Traffic;
                Ok(None)
            }
            Err(cause) => Ok(Some(cause)),
        },
        _ if is_skipped(body) => Ok(None),
        _ => Ok(Some(StreamFault::Command)),
    }
}

// Takes in a frame's body, or returns why it is refused.
fn take_body(
    alloc: Global,
    role: Role,
    progress: &mut Progress,
    kind: Kind,
    body: &[u8],
) -> Result<Option<StreamFault>, AllocError>
    requires { progress.old.stage ≡ Stage.Greeting → ⊥ }
    ensures ok { IfOk result (λ cause. TakesBody role kind body.now cause progress.old progress.new) }
    ensures err { OnErr result (SameMessages progress.old progress.new) }
{
    match kind {
        Kind::Command => take_command(alloc, role, progress, body),
        Kind::Message(position) => {
            add_frame(alloc, progress, position, body)?;
            Ok(None)
        }
    }
}

// Takes in the item at the front of the bytes.
fn take_item(
    alloc: Global,
    role: Role,
    progress: &mut Progress,
    bytes: &[u8],
) -> Result<Taken, AllocError>
    ensures ok { IfOk result (λ taken. TakesItem role bytes.now taken progress.old progress.new) }
    ensures err { OnErr result (SameMessages progress.old progress.new) }
{
    match read_head(progress.stage, progress.frames.len(), bytes) {
        Head::Wants => Ok(Taken::Partial),
        Head::Bad(cause) => Ok(Taken::Broken(cause)),
        Head::Greets => {
            progress.stage = Stage::Handshake;
            Ok(Taken::Item(GREETING_SIZE))
        }
        Head::Sized(kind, from, size) => {
            if from > bytes.len() || size > bytes.len() - from {
                return Ok(Taken::Partial);
            }
            let body = &bytes[from..from + size];
            match take_body(alloc, role, progress, kind, body)? {
                None => Ok(Taken::Item(from + size)),
                Some(cause) => Ok(Taken::Broken(cause)),
            }
        }
    }
}

/// Takes in the whole items at the front of the bytes. Returns their length in bytes, and the fault that
/// follows them, if one does.
pub fn take_items(
    alloc: Global,
    role: Role,
    progress: &mut Progress,
    bytes: &[u8],
) -> Result<(usize, Option<StreamFault>), AllocError>
    ensures { TakesItems role bytes.now result progress.old progress.new }
{
    let mut place = 0usize;
    while place <= bytes.len() {
        match take_item(alloc, role, progress, &bytes[place..])? {
            Taken::Item(size) => place += size,
            Taken::Partial => return Ok((place, None)),
            Taken::Broken(cause) => return Ok((place, Some(cause))),
        }
    }
    unreachable!()
}

/// The frames of a message that had come before this feed, of which there were `count`.
pub fn first_frames(progress: Progress, count: usize) -> Frames
    ensures { FirstFrames progress.messages.items progress.frames result count }
{
    let Progress {
        stage: _,
        accepted: _,
        mut frames,
        mut messages,
    } = progress;
    if messages.is_empty() {
        frames.truncate(count);
        return frames;
    }
    let mut first = messages.swap_remove(0);
    first.truncate(count);
    first
}
