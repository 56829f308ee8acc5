//! Replies to requests.
ghost use Rattle.std.specs.Prelude.{◌≡◌, IfOk};

use crate::messages::FollowUp;
use crate::refusals::refused;
use dap_answers::answer::Body;
use dap_messages::message::{EditorBody, EditorOutcome};
use std::alloc::{AllocError, Global};

/// What the response to a request says, and which events come behind it.
#[derive(Drop)]
pub struct Reply {
    pub outcome: EditorOutcome,
    pub follow: FollowUp,
}

/// The reply that refuses a request with this text.
pub fn refuse(alloc: Global, text: &str) -> Result<Reply, AllocError>
    ensures { IfOk result (λ reply. reply
        ≡ record { outcome = EditorOutcome.Refused text.now; follow = FollowUp.Nothing }) }
{
    let outcome = refused(alloc, text)?;
    Ok(Reply {
        outcome,
        follow: FollowUp::Nothing,
    })
}

/// A success with this body.
pub fn succeed(body: EditorBody, follow: FollowUp) -> Reply
    ensures { result ≡ record { outcome = EditorOutcome.Success body; follow = follow } }
{
    Reply {
        outcome: EditorOutcome::Success(body),
        follow,
    }
}

/// A success with an empty body.
pub fn accept(follow: FollowUp) -> Reply
    ensures { result ≡ record {
      outcome = EditorOutcome.Success (EditorBody.Board Body.Empty);
      follow = follow;
    } }
{
    succeed(EditorBody::Board(Body::Empty), follow)
}
