//! Writing messages.
ghost use Rattle.std.specs.Prelude.{◌≡◌, ◌++◌, OnOk, OnErr, string_bytes, IfOk};
ghost use Rattle.dap_stream.specs.Writing.{header_bytes, message_bytes};

use std::alloc::{AllocError, Global};

const FIELD: &str = "Content-Length: ";

// The end of the field's line, and the empty line.
const LINE_ENDS: &str = "\r\n\r\n";

fn header_of(alloc: Global, size: usize) -> Result<String, AllocError>
    ensures { IfOk result (λ text. string_bytes text ≡ header_bytes size) }
{
    format!(in alloc; "{FIELD}{size}{LINE_ENDS}")
}

fn put_parts(out: &mut Vec<u8>, header: &str, body: &[u8]) -> Result<(), AllocError>
    ensures { OnOk result (out.new.items ≡ out.old.items ++ (header.now ++ body.now)) }
{
    out.extend_from_slice(header.as_bytes())?;
    out.extend_from_slice(body)?;
    Ok(())
}

/// Appends a message with this body: one field, Content-Length, and the body.
pub fn put_message(alloc: Global, out: &mut Vec<u8>, body: &[u8]) -> Result<(), AllocError>
    ensures ok { OnOk result (out.new.items ≡ out.old.items ++ message_bytes body.now) }
    ensures err { OnErr result (out.new.items ≡ out.old.items) }
{
    let header = header_of(alloc, body.len())?;
    let room = header.as_str().len().saturating_add(body.len());
    out.reserve(room)?;
    out.extend_from_slice(header.as_bytes())?;
    out.extend_from_slice(body)
}
