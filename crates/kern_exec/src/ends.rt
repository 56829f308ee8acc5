//! What the end of an execution posts.
ghost use Rattle.std.specs.Prelude.{◌≡◌, ◌<◌, ◌≤◌, ◌+◌, ◌++◌, length, ◌∷◌, [], Option, option_map};
ghost use Rattle.std.specs.Prelude.{IfOk, codes};
ghost use Rattle.base_text.specs.Bytes.{Bytes};
ghost use Rattle.kern_post.specs.declared.content.Ending.{Ending};
ghost use Rattle.kern_exec.specs.declared.execution.Current.{Current};
ghost use Rattle.kern_peers.specs.Connections.{Connections};
ghost use Rattle.kern_exec.specs.Letters.{published_under};
ghost use Rattle.kern_exec.specs.Ends.{error_letters, end_letters, cut_letters};
ghost use Rattle.kern_exec.specs.Prepared.{prepared_end};

use crate::execution::{Current, Execution};
use crate::letters::{BusyIdle, address, published_under};
use kern_peers::peers::Peers;
use kern_post::content::{Cause, Content, Ending, ExecutionState};
use kern_post::letters::Letters;
use kern_post::post::{Envelope, Letter};
use std::alloc::{AllocError, Global};

/// The envelopes of the letters that report the end of an execution, allocated before anything changes, so
/// that posting them can't fail.
#[derive(Drop)]
pub struct PreparedEnd {
    pub error: Envelope,
    pub reply: Envelope,
    pub idle: Envelope,
    pub is_silent: bool,
    pub count: u64,
}

/// Allocates the envelopes for the end of an execution. `count` is its execution count.
pub fn prepare_end(
    alloc: Global,
    peers: &Peers,
    execution: &Execution,
    count: u64,
) -> Result<PreparedEnd, AllocError>
    ensures { IfOk result (λ prepared. prepared ≡ prepared_end peers.now
        (record { execution = execution.now; count = count })) }
{
    let error = published_under(alloc, peers, &execution.header, "error")?;
    let reply = address(
        alloc,
        execution.connection,
        &execution.identities,
        &execution.header,
    )?;
    match published_under(alloc, peers, &execution.header, "status") {
        Ok(idle) => Ok(PreparedEnd {
            error,
            reply,
            idle,
            is_silent: execution.request.is_silent,
            count,
        }),
        Err(_) => {
            drop(error);
            drop(reply);
            Err(AllocError)
        }
    }
}

fn push_error(letters: &mut Letters, envelope: Envelope, is_silent: bool, ending: Ending)
    requires { length letters.old < 8 }
    ensures letters { (connections : Connections) (parent : Bytes)
        → envelope ≡ published_under connections parent (codes "error")
        → letters.new ≡ letters.old ++ error_letters is_silent connections parent ending }
    ensures bound { length letters.new ≤ length letters.old + 1 }
{
    if is_silent {
        drop(envelope);
        return;
    }
    match ending {
        Ending::Done => drop(envelope),
        Ending::Failed(cause) => letters.push(Letter {
            envelope,
            content: Content::Error(cause),
        }),
    }
}

/// Adds the letters of an end: the error, if the execution failed and isn't silent, the execute_reply, and
/// idle.
pub fn push_end(letters: &mut Letters, prepared: PreparedEnd, ending: Ending)
    requires { length letters.old + 3 ≤ 8 }
    ensures letters { (connections : Connections) (c : Current) → prepared ≡ prepared_end connections c
        → letters.new ≡ letters.old ++ end_letters connections c ending }
    ensures bound { length letters.new ≤ length letters.old + 3 }
{
    let PreparedEnd {
        error,
        reply,
        idle,
        is_silent,
        count,
    } = prepared;
    push_error(letters, error, is_silent, ending);
    letters.push(Letter {
        envelope: reply,
        content: Content::ExecuteReply { count, ending },
    });
    letters.push(Letter {
        envelope: idle,
        content: Content::Status(ExecutionState::Idle),
    });
}

fn push_cut(letters: &mut Letters, prepared: Option<PreparedEnd>, cause: Cause)
    requires { length letters.old + 3 ≤ 8 }
    ensures letters { (connections : Connections) (cut : Option Current)
        → prepared ≡ option_map (prepared_end connections) cut
        → letters.new ≡ letters.old ++ cut_letters connections cut cause }
    ensures bound { length letters.new ≤ length letters.old + 3 }
{
    match prepared {
        None => {}
        Some(prepared) => push_end(letters, prepared, Ending::Failed(cause)),
    }
}

/// The letters of a request that ends the run: busy, the letters of the execution's end if there is a run,
/// the reply, and idle.
#[tactic(auto, using(crate::proofs::ListLemmas::grouped))]
pub fn cut_letters(
    busy_idle: BusyIdle,
    end: Option<PreparedEnd>,
    cause: Cause,
    reply: Letter,
) -> Letters
    requires { length busy_idle.letters ≤ 1 }
    ensures { (peers : Connections) (cut : Option Current) → end ≡ option_map (prepared_end peers) cut
        → result ≡ busy_idle.letters
        ++ ((cut_letters peers cut cause ++ reply ∷ []) ++ busy_idle.idle ∷ []) }
{
    let BusyIdle { mut letters, idle } = busy_idle;
    push_cut(&mut letters, end, cause);
    letters.push(reply);
    letters.push(idle);
    letters
}
