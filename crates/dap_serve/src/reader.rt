//! The thread that reads.
ghost use Rattle.std.specs.Prelude.{◌<◌, length, vec_len, IfOk};

use crate::inbox::Inbox;
use base_streams::ports::Inlet;
use dap_debugger::incoming::StreamEnd;
use dap_stream::bodies::Bodies;
use dap_stream::decoder::Decoder;
use dap_stream::fault::FeedFault;
use std::alloc::{AllocError, Global};
use std::sync::Wait;

// The most bytes of a read.
const PIECE_SIZE: usize = 65_536;

fn new_buffer(alloc: Global) -> Result<Vec<u8>, AllocError>
    ensures { IfOk result (λ buffer. 0 < vec_len buffer) }
{
    vec![in alloc; 0; PIECE_SIZE]
}

// Puts bodies into the inbox. An error says why no more come.
fn put_all<R: Wait>(rt: &R, inbox: &Inbox, bodies: Bodies) -> Result<(), StreamEnd> {
    for body in bodies.into_vec() {
        inbox.put(rt, body)?;
    }
    Ok(())
}

// Puts the bodies that a piece of the stream completes into the inbox.
fn take_piece<R: Wait>(
    rt: &R,
    alloc: Global,
    inbox: &Inbox,
    decoder: &mut Decoder,
    piece: &[u8],
) -> Result<(), StreamEnd> {
    match decoder.feed(alloc, piece) {
        Ok(bodies) => put_all(rt, inbox, bodies),
        Err(FeedFault::OutOfMemory) => Err(StreamEnd::OutOfMemory),
        Err(FeedFault::Broken { before, cause }) => {
            put_all(rt, inbox, before)?;
            Err(StreamEnd::Broken(cause))
        }
    }
}

// Reads to the end of the stream, and says why no more bodies come.
fn read_through<R: Wait, I: Inlet>(
    rt: &R,
    alloc: Global,
    inbox: &Inbox,
    inlet: &mut I,
    buffer: &mut [u8],
) -> StreamEnd
    requires { 0 < length buffer.old }
{
    let mut decoder = Decoder::new(alloc);
    for _ in 0..u64::MAX {
        match inlet.read(buffer) {
            Ok(0) => return StreamEnd::Ended,
            Ok(count) => {
                let (piece, _) = buffer.split_at(count);
                if let Err(end) = take_piece(rt, alloc, inbox, &mut decoder, piece) {
                    return end;
                }
            }
            Err(_) => return StreamEnd::ReadFailed,
        }
    }
    StreamEnd::ReadFailed
}

/// Reads an editor's stream to its end, and puts the bodies of its messages and why no more come into the
/// inbox.
pub fn read_all<R: Wait, I: Inlet>(rt: &R, alloc: Global, inbox: &Inbox, inlet: &mut I) {
    let end = match new_buffer(alloc) {
        Ok(mut buffer) => read_through(rt, alloc, inbox, inlet, &mut buffer),
        Err(_) => StreamEnd::OutOfMemory,
    };
    inbox.finish(rt, end);
}
