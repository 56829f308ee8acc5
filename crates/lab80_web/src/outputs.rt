//! What is written: posts, and answers to items.
ghost use Rattle.std.specs.Prelude.{◌≡◌, ◌<◌, ◌∷◌, [], length, IfOk, OnOk};
ghost use Rattle.base_streams.specs.States.{IsWritable};
ghost use Rattle.zmtp_wire.specs.Sending.{Writes};
ghost use Rattle.zmtp_wire.specs.Writing.{message_bytes};
ghost use Rattle.lab80_web.specs.Outputs.{OfPost, OfAnswer, IsPostMessage, connections_frame};
ghost use Rattle.lab80_web.specs.Steps.{WritesOutputs, WritesKept, WritesPosts};

use crate::answer::{Answer, answer_frames};
use base_streams::ports::Outlet;
use base_streams::writing::write_all;
use base_text::sequence::{Bytes, Frames};
use kern_core::bare::BareKernel;
use kern_post::post::Post;
use kern_render::rendering::render;
use std::alloc::{AllocError, Global};
use zmtp_wire::peer_fault::PeerFault;
use zmtp_wire::writing::put_message;

/// The session that the headers of all messages name.
const SESSION: &str = "lab80-web";

// The numbers of connections, eight bytes each.
#[tactic(auto, using(crate::proofs::OutputLemmas::flat_map_more))]
fn connections_frame(alloc: Global, connections: &[u32]) -> Result<Bytes, AllocError>
    ensures { IfOk result (λ frame. frame ≡ connections_frame connections.now) }
{
    let mut frame = Vec::new(alloc);
    for connection in connections {
        frame.extend_from_slice(&u64::from(*connection).to_be_bytes())?;
    }
    Ok(Bytes::from(frame))
}

// The message of a post: `post`, the connections that get it, and its frames.
fn post_message(alloc: Global, post: &Post) -> Result<Frames, AllocError>
    ensures { IfOk result (IsPostMessage post.now) }
{
    let word = Bytes::copy_of(alloc, b"post")?;
    let connections = connections_frame(alloc, post.letter.envelope.to.as_slice())?;
    let rendered = render(alloc, post, b"", SESSION)?;
    let mut frames = vec![in alloc; word, connections]?;
    frames.append(&mut rendered.into_vec())?;
    Ok(Frames::from(frames))
}

// Writes a message.
fn send<W: Outlet>(alloc: Global, to: &mut W, frames: &Frames) -> Result<(), PeerFault>
    requires some { 0 < length frames.now }
    requires good { IsWritable (W.state to.old) }
    ensures { Writes (message_bytes frames.now) (W.state to.old) (W.state to.new) result }
{
    let Ok(bytes) = put_message(alloc, frames.as_slice()) else {
        return Err(PeerFault::OutOfMemory);
    };
    match write_all(to, bytes.as_slice()) {
        Ok(()) => Ok(()),
        Err(_) => Err(PeerFault::WriteFailed),
    }
}

// Writes the message of a post.
fn send_post<W: Outlet>(alloc: Global, to: &mut W, post: &Post) -> Result<(), PeerFault>
    requires { IsWritable (W.state to.old) }
    ensures { WritesOutputs (OfPost post.now ∷ []) (W.state to.old) (W.state to.new) result }
{
    match post_message(alloc, post) {
        Ok(frames) => send(alloc, to, &frames),
        Err(_) => Err(PeerFault::OutOfMemory),
    }
}

/// Writes an answer.
pub fn send_answer<W: Outlet>(alloc: Global, to: &mut W, answer: Answer) -> Result<(), PeerFault>
    requires { IsWritable (W.state to.old) }
    ensures { WritesOutputs (OfAnswer answer ∷ []) (W.state to.old) (W.state to.new) result }
{
    match answer_frames(alloc, answer) {
        Ok(frames) => send(alloc, to, &frames),
        Err(_) => Err(PeerFault::OutOfMemory),
    }
}

// Writes the post with a number, if it is kept.
fn send_kept<W: Outlet>(
    alloc: Global,
    to: &mut W,
    kernel: &BareKernel,
    number: u64,
) -> Result<(), PeerFault>
    requires { IsWritable (W.state to.old) }
    ensures good { OnOk result (IsWritable (W.state to.new)) }
    ensures writes { WritesKept kernel.now number (W.state to.old) (W.state to.new) result }
{
    match kernel.post(number) {
        Some(post) => send_post(alloc, to, post),
        None => Ok(()),
    }
}

/// Writes the posts after this number, of which there are at most eight.
pub fn send_posts<W: Outlet>(
    alloc: Global,
    to: &mut W,
    kernel: &BareKernel,
    after: u64,
) -> Result<(), PeerFault>
    requires { IsWritable (W.state to.old) }
    ensures good { OnOk result (IsWritable (W.state to.new)) }
    ensures writes { WritesPosts kernel.now after (W.state to.old) (W.state to.new) result }
{
    for number in after..kernel.post_count() {
        match send_kept(alloc, to, kernel, number + 1) {
            Ok(()) => {}
            Err(fault) => return Err(fault),
        }
    }
    Ok(())
}
