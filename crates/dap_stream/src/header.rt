//! The header of a message.
ghost use Rattle.std.specs.Prelude.{◌≡◌, ◌≤◌, length};
ghost use Rattle.dap_stream.specs.Lines.{LinesSay};
ghost use Rattle.dap_stream.specs.Reading.{HeaderSays};

use crate::fault::StreamFault;
use crate::line::{Line, read_line};

// The longest header, in bytes.
const HEADER_SIZE: usize = 1024;

/// What the first bytes of a message are.
#[derive(Clone, Copy)]
pub enum Header {
    /// The header has begun, and isn't whole.
    Begun,
    /// A whole header: its length in bytes, and the body's size.
    Whole(usize, usize),
    /// No header can go on with one of the bytes.
    Broken(StreamFault),
}

// Reads a header of any length.
#[tactic(auto, using(crate::proofs::StreamLemmas::read_none))]
fn read_lines(bytes: &[u8]) -> Header
    ensures { LinesSay bytes.now result }
{
    let mut size = None;
    let mut rest = bytes;
    loop {
        match read_line(size, rest) {
            Line::Begun => return Header::Begun,
            Line::Field(others, next) => {
                size = next;
                rest = others;
            }
            Line::End(others, size) => return Header::Whole(bytes.len() - others.len(), size),
            Line::Broken(cause) => return Header::Broken(cause),
        }
    }
}

/// Reads a header of at most 1,024 bytes.
pub fn read_header(bytes: &[u8]) -> Header
    ensures { HeaderSays bytes.now result }
{
    let limit = bytes.len().min(HEADER_SIZE);
    let (front, _) = bytes.split_at(limit);
    match read_lines(front) {
        Header::Begun => {
            if limit == HEADER_SIZE {
                Header::Broken(StreamFault::HeaderSize)
            } else {
                Header::Begun
            }
        }
        Header::Whole(count, size) => Header::Whole(count, size),
        Header::Broken(cause) => Header::Broken(cause),
    }
}
