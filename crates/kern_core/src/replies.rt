//! Replies that need no board and change nothing.
ghost use Rattle.std.specs.Prelude.{◌≡◌, IfOk, Ok, Err};
ghost use Rattle.asm_text.specs.Statements.{statements_of};
ghost use Rattle.kern_core.specs.Requests.{completeness_by, completeness_of, plain_reply};

use asm_syntax::fault::{AsmFault, FaultKind};
use asm_text::statements::statements;
use base_text::text::Text;
use kern_post::content::{Cause, Completeness, Content, Ending, RefusedRequest};
use kern_request::request::{NeedyRequest, RequestBody};
use std::alloc::{AllocError, Global};

fn completeness_by(kind: FaultKind) -> Completeness
    ensures { result ≡ completeness_by kind }
{
    match kind {
        FaultKind::Conditional {
            is_missing_endif: true,
        } => Completeness::Incomplete,
        _ => Completeness::Invalid,
    }
}

fn completeness_of(alloc: Global, code: &Text) -> Result<Completeness, AllocError>
    ensures { IfOk result (λ c. c ≡ completeness_of (statements_of code.now)) }
{
    match statements(alloc, code.as_str()) {
        Ok(_) => Ok(Completeness::Complete),
        Err(AsmFault::At { kind, .. }) => Ok(completeness_by(kind)),
        Err(AsmFault::OutOfMemory) => Err(AllocError),
    }
}

fn bad_content(request: NeedyRequest, count: u64) -> Option<Content>
    ensures { result ≡ plain_reply count (RequestBody.BadContent request) }
{
    match request {
        NeedyRequest::Execute => Some(Content::ExecuteReply {
            count,
            ending: Ending::Failed(Cause::BadContent),
        }),
        NeedyRequest::IsComplete => Some(Content::BadContentReply(RefusedRequest::IsComplete)),
        NeedyRequest::Complete => Some(Content::BadContentReply(RefusedRequest::Complete)),
        NeedyRequest::Shutdown => Some(Content::BadContentReply(RefusedRequest::Shutdown)),
        NeedyRequest::CommOpen | NeedyRequest::InputReply => None,
    }
}

/// The reply to a request that does nothing but get a reply, and None for any other. `count` is the
/// execution count.
pub fn plain_reply(
    alloc: Global,
    body: &RequestBody,
    count: u64,
) -> Result<Option<Content>, AllocError>
    ensures { IfOk result (λ content. content ≡ plain_reply count body.now) }
{
    match body {
        RequestBody::KernelInfo => Ok(Some(Content::KernelInfoReply)),
        RequestBody::IsComplete { code } => {
            let completeness = completeness_of(alloc, code)?;
            Ok(Some(Content::IsCompleteReply(completeness)))
        }
        RequestBody::Complete { cursor_pos } => Ok(Some(Content::CompleteReply {
            cursor_pos: *cursor_pos,
        })),
        RequestBody::Inspect => Ok(Some(Content::InspectReply)),
        RequestBody::History => Ok(Some(Content::HistoryReply)),
        RequestBody::CommInfo => Ok(Some(Content::CommInfoReply)),
        RequestBody::BadDebug(response) => {
            let response = response.clone()?;
            Ok(Some(Content::DebugReply(response)))
        }
        RequestBody::BadContent(request) => Ok(bad_content(*request, count)),
        _ => Ok(None),
    }
}
