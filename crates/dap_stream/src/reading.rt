//! The messages at the front of a decoder's bytes.
ghost use Rattle.std.specs.Prelude.{◌≡◌, ◌++◌, ◌∷◌, [], OnOk, IfOk};
ghost use Rattle.dap_stream.specs.Reading.{Takes, IsReading};

use crate::fault::StreamFault;
use crate::header::{Header, read_header};
use base_text::sequence::Bytes;
use std::alloc::{AllocError, Global};

/// What the first bytes are.
#[derive(Drop)]
pub enum Taken<'a> {
    /// A message with this body, and the bytes after it.
    Message(&'a [u8], &'a [u8]),
    /// No whole message; and what is wrong, if no message can begin as these bytes do.
    End(Option<StreamFault>),
}

/// The whole messages at the front of bytes.
#[derive(Drop)]
pub struct Reading {
    pub bodies: Vec<Bytes>,
    /// The length of these messages, in bytes.
    pub used: usize,
    /// The fault in the bytes after them, if there is one.
    pub fault: Option<StreamFault>,
}

fn take_message(bytes: &[u8]) -> Taken<'_>
    ensures { Takes bytes.now result }
{
    match read_header(bytes) {
        Header::Begun => Taken::End(None),
        Header::Broken(cause) => Taken::End(Some(cause)),
        Header::Whole(header, size) => {
            let (_, others) = bytes.split_at(header);
            if others.len() < size {
                return Taken::End(None);
            }
            let (body, others) = others.split_at(size);
            Taken::Message(body, others)
        }
    }
}

// Adds a copy of a body.
fn add_body(alloc: Global, bodies: &mut Vec<Bytes>, body: &[u8]) -> Result<(), AllocError>
    ensures { OnOk result (bodies.new.items ≡ bodies.old.items ++ body.now ∷ []) }
{
    let body = Bytes::copy_of(alloc, body)?;
    bodies.push(body)?;
    Ok(())
}

/// Reads the whole messages at the front of the bytes.
pub fn read_messages(alloc: Global, bytes: &[u8]) -> Result<Reading, AllocError>
    ensures { IfOk result (λ r. IsReading bytes.now r.bodies.items r.used r.fault) }
{
    let mut bodies = Vec::new(alloc);
    let mut rest = bytes;
    loop {
        match take_message(rest) {
            Taken::Message(body, others) => {
                add_body(alloc, &mut bodies, body)?;
                rest = others;
            }
            Taken::End(fault) => {
                return Ok(Reading {
                    bodies,
                    used: bytes.len() - rest.len(),
                    fault,
                });
            }
        }
    }
}
