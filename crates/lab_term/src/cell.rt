//! A cell, the request that runs it, and how it ends.
ghost use Rattle.std.specs.Prelude.{◌≡◌, ◌≤◌, [], slice_index_or, IfOk};
ghost use Rattle.serde_json.specs.View.{view};
ghost use Rattle.jup_wire.specs.Dates.{last_moment};
ghost use Rattle.lab_term.specs.Requests.{request_content, request_frames, IsDraftOf, IsRequest};

use base_text::sequence::{Bytes, Frames};
use base_text::text::Text;
use jup_wire::date::date_text;
use jup_wire::header::{empty_object, header_json};
use jup_wire::sealing::{Draft, seal_message};
use serde_json::{Value, json};
use std::alloc::{AllocError, Global};

/// A cell to run.
#[derive(Clone, Copy)]
pub struct Cell<'a> {
    /// The source of the cell.
    pub code: &'a str,
    /// The key of the connection file.
    pub key: &'a [u8],
    /// The name of the client's session.
    pub session: &'a str,
    /// When the request is made, in seconds since 1970.
    pub unix_seconds: u64,
}

/// How a cell ended that was run to its end.
#[derive(Clone, Copy, PartialEq, Eq)]
pub enum CellEnd {
    /// There was no error among its messages.
    Success,
    /// There was an error among its messages.
    Error,
}

/// The frames of a request, and the header in them.
#[derive(Drop)]
pub(crate) struct Request {
    pub header: Bytes,
    pub frames: Frames,
}

fn content_json(alloc: Global, code: &str) -> Result<Value, AllocError>
    ensures { IfOk result (λ v. view v ≡ request_content code.now) }
{
    json!(in alloc; { "code": code })
}

fn draft_of(alloc: Global, date: &str, session: &str, code: &str) -> Result<Draft, AllocError>
    ensures { IfOk result (IsDraftOf date.now session.now code.now) }
{
    let header = header_json(alloc, date, session, 1, "execute_request")?;
    let parent_header = Bytes::copy_of(alloc, b"{}")?;
    let metadata = empty_object(alloc)?;
    let content = content_json(alloc, code)?;
    Ok(Draft {
        identities: Frames::new(alloc),
        header,
        parent_header,
        metadata,
        content,
    })
}

// The frames of the request with this date.
fn dated_frames(alloc: Global, cell: &Cell<'_>, date: &str) -> Result<Frames, AllocError>
    ensures { IfOk result (λ frames. frames ≡ request_frames cell.now.key.now date.now cell.now.session.now
        cell.now.code.now) }
{
    let draft = draft_of(alloc, date, cell.session, cell.code)?;
    seal_message(alloc, draft, cell.key)
}

// The bytes of the header in these frames.
fn header_of(alloc: Global, frames: &Frames) -> Result<Bytes, AllocError>
    ensures { IfOk result (λ header. header ≡ slice_index_or frames.now 2 []) }
{
    match frames.as_slice().get(2) {
        Some(header) => header.clone(),
        None => Ok(Bytes::new(alloc)),
    }
}

/// The request that runs a cell (Jupyter messaging 5.4, "Execute").
pub(crate) fn request_of(alloc: Global, cell: &Cell<'_>) -> Result<Request, AllocError>
    requires { cell.now.unix_seconds ≤ last_moment }
    ensures { IfOk result (λ request. IsRequest cell.now request.header request.frames) }
{
    let date = date_text(alloc, cell.unix_seconds)?;
    let frames = dated_frames(alloc, cell, date.as_str())?;
    let header = header_of(alloc, &frames)?;
    Ok(Request { header, frames })
}
