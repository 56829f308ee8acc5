//! An execution.
ghost use Rattle.std.specs.Prelude.{◌≡◌, IfOk};
ghost use Rattle.kern_exec.specs.Executions.{execution_of};

use base_text::sequence::{Bytes, Frames};
use base_text::text::Text;
use kern_post::post::copy_bytes;
use kern_request::request::{ExecuteRequest, Request};
use std::alloc::{AllocError, Global};

/// A requested execution, with all that its posts repeat of the request.
#[derive(Drop)]
pub struct Execution {
    /// The connection that requested it.
    pub connection: u32,
    /// The identity with which that connection joined.
    pub identity: Bytes,
    /// The identities of the request.
    pub identities: Frames,
    /// The header frame of the request.
    pub header: Bytes,
    pub request: ExecuteRequest,
}

/// An execution that was taken from the queue, with its execution count.
#[derive(Drop)]
pub struct Current {
    pub execution: Execution,
    pub count: u64,
}

pub(crate) fn copy_frames(frames: &Frames) -> Result<Frames, AllocError>
    ensures { IfOk result (λ copy. copy ≡ frames.now) }
{
    frames.clone()
}

pub(crate) fn copy_text(alloc: Global, text: &Text) -> Result<Text, AllocError>
    ensures { IfOk result (λ copy. copy ≡ text.now) }
{
    Text::copy_of(alloc, text.as_str())
}

fn copy_request(alloc: Global, request: &ExecuteRequest) -> Result<ExecuteRequest, AllocError>
    ensures { IfOk result (λ copy. copy ≡ request.now) }
{
    let code = copy_text(alloc, &request.code)?;
    Ok(ExecuteRequest {
        code,
        is_silent: request.is_silent,
        stores_history: request.stores_history,
        allows_stdin: request.allows_stdin,
    })
}

impl Execution {
    /// The execution that a connection requests, with copies of the request's parts. `identity` is the one
    /// with which the connection joined.
    pub fn copy_of(
        alloc: Global,
        connection: u32,
        identity: Bytes,
        request: &Request,
        execute: &ExecuteRequest,
    ) -> Result<Execution, AllocError>
        ensures { IfOk result (λ x. x ≡ execution_of connection identity request.now execute.now) }
    {
        let identities = copy_frames(&request.identities)?;
        let header = copy_bytes(&request.header)?;
        let request = copy_request(alloc, execute)?;
        Ok(Execution {
            connection,
            identity,
            identities,
            header,
            request,
        })
    }
}
