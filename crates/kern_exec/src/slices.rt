//! What a slice of a run posts.
ghost use Rattle.std.specs.Prelude.{◌≡◌, ◌<◌, ◌≤◌, ◌+◌, ◌++◌, ◌∷◌, [], length, IfOk, vec_capacity, codes};
ghost use Rattle.kern_peers.specs.Connections.{Connections};
ghost use Rattle.kern_exec.specs.declared.execution.Current.{Current};
ghost use Rattle.kern_exec.specs.Ends.{ending_of, line_envelope, input_requests};
ghost use Rattle.kern_exec.specs.Ends.{stream_letters, outcome_letters, slice_letters};
ghost use Rattle.kern_exec.specs.Letters.{published_under};
ghost use Rattle.kern_exec.specs.Prepared.{IsPreparedSlice, prepared_end};

use crate::ends::{PreparedEnd, prepare_end, push_end};
use crate::execution::Current;
use crate::letters::{address, published_under};
use base_text::sequence::Bytes;
use dap_answers::answer::Event as DebugEvent;
use dap_board::names::reason_of;
use i80_base::ports::PortOperation;
use i80_devs::console::{is_line_requested, print_all};
use kern_peers::peers::Peers;
use kern_post::content::{Cause, Content, Ending};
use kern_post::letters::Letters;
use kern_post::post::{Envelope, Letter};
use lab_core::answer::{End, SliceOutcome};
use lab_core::run_slice::STEPS;
use std::alloc::{AllocError, Global};

/// Buffers and envelopes for all that a slice of an execution can post, allocated before its first step.
#[derive(Drop)]
pub struct PreparedSlice {
    pub letters: Letters,
    /// A buffer for the output to the console.
    pub text: Vec<u8>,
    /// The envelope of the output.
    pub stream: Envelope,
    /// The envelope of an input_request, if the user can be asked.
    pub line: Option<Envelope>,
    /// The envelope of a stopped event.
    pub stopped: Envelope,
    pub end: PreparedEnd,
}

fn line_envelope(
    alloc: Global,
    peers: &Peers,
    current: &Current,
) -> Result<Option<Envelope>, AllocError>
    ensures { IfOk result (λ e. e ≡ line_envelope peers.now current.now) }
{
    let execution = &current.execution;
    if !execution.request.allows_stdin {
        return Ok(None);
    }
    match peers.stdin_of(execution.identity.as_slice()) {
        None => Ok(None),
        Some(connection) => {
            let envelope = address(alloc, connection, &execution.identities, &execution.header)?;
            Ok(Some(envelope))
        }
    }
}

// The envelopes of a stopped event and of the end.
fn prepare_stop_and_end(
    alloc: Global,
    peers: &Peers,
    current: &Current,
) -> Result<(Envelope, PreparedEnd), AllocError>
    ensures { IfOk result (λ made.
        (made.0 ≡ published_under peers.now current.now.execution.header (codes "debug_event"))
        × (made.1 ≡ prepared_end peers.now current.now)) }
{
    let execution = &current.execution;
    let stopped = published_under(alloc, peers, &execution.header, "debug_event")?;
    match prepare_end(alloc, peers, execution, current.count) {
        Ok(end) => Ok((stopped, end)),
        Err(_) => {
            drop(stopped);
            Err(AllocError)
        }
    }
}

/// Allocates all that posting after a slice of an execution needs.
pub fn prepare_slice(
    alloc: Global,
    peers: &Peers,
    current: &Current,
) -> Result<PreparedSlice, AllocError>
    ensures { IfOk result (IsPreparedSlice peers.now current.now) }
{
    let header = &current.execution.header;
    let letters = Letters::new(alloc)?;
    let text = Vec::with_capacity(alloc, STEPS.into())?;
    let stream = published_under(alloc, peers, header, "stream")?;
    let line = line_envelope(alloc, peers, current)?;
    match prepare_stop_and_end(alloc, peers, current) {
        Ok((stopped, end)) => Ok(PreparedSlice {
            letters,
            text,
            stream,
            line,
            stopped,
            end,
        }),
        Err(_) => {
            drop(stream);
            drop(line);
            Err(AllocError)
        }
    }
}

fn push_stream(letters: &mut Letters, envelope: Envelope, is_silent: bool, text: Vec<u8>)
    requires { length letters.old < 8 }
    ensures letters { (connections : Connections) (c : Current) → is_silent ≡ c.execution.request.is_silent
        → envelope ≡ published_under connections c.execution.header (codes "stream")
        → letters.new ≡ letters.old ++ stream_letters connections c text.items }
    ensures bound { length letters.new ≤ length letters.old + 1 }
{
    if is_silent || text.is_empty() {
        drop(envelope);
        return;
    }
    letters.push(Letter {
        envelope,
        content: Content::Stream(Bytes::from(text)),
    });
}

fn push_line(letters: &mut Letters, envelope: Option<Envelope>, wants_line: bool)
    requires { length letters.old < 8 }
    ensures letters { letters.new ≡ letters.old ++ input_requests envelope wants_line }
    ensures bound { length letters.new ≤ length letters.old + 1 }
{
    let Some(envelope) = envelope else {
        return;
    };
    if !wants_line {
        return;
    }
    letters.push(Letter {
        envelope,
        content: Content::InputRequest,
    });
}

fn ending_of(end: End) -> Ending
    ensures { result ≡ ending_of end }
{
    match end {
        End::Halted => Ending::Done,
        End::Undefined { opcode, pc } => Ending::Failed(Cause::UndefinedOpcode { opcode, pc }),
    }
}

fn push_outcome(letters: &mut Letters, stopped: Envelope, end: PreparedEnd, outcome: SliceOutcome)
    requires { length letters.old + 3 ≤ 8 }
    ensures { (connections : Connections) (c : Current) → end ≡ prepared_end connections c
        → stopped ≡ published_under connections c.execution.header (codes "debug_event")
        → letters.new ≡ letters.old ++ outcome_letters connections c outcome }
{
    match outcome {
        SliceOutcome::More | SliceOutcome::Waiting => {
            drop(stopped);
            drop(end);
        }
        SliceOutcome::Stop(stop) => {
            drop(end);
            letters.push(Letter {
                envelope: stopped,
                content: Content::DebugEvent(DebugEvent::Stopped(reason_of(stop))),
            });
        }
        SliceOutcome::End(ending) => {
            drop(stopped);
            push_end(letters, end, ending_of(ending));
        }
    }
}

/// The letters that a slice posts, by its traffic on the ports and its outcome.
pub fn letters_of(
    prepared: PreparedSlice,
    traffic: &[PortOperation],
    outcome: SliceOutcome,
) -> Letters
    requires room { length traffic.now ≤ vec_capacity prepared.text }
    requires empty { (prepared.text.items ≡ []) × (prepared.letters ≡ []) }
    ensures { (connections : Connections) (c : Current) → IsPreparedSlice connections c prepared
        → result ≡ slice_letters connections c traffic.now outcome }
{
    let PreparedSlice {
        mut letters,
        text,
        stream,
        line,
        stopped,
        end,
    } = prepared;
    let text = print_all(text, traffic);
    push_stream(&mut letters, stream, end.is_silent, text);
    push_line(&mut letters, line, is_line_requested(traffic));
    push_outcome(&mut letters, stopped, end, outcome);
    letters
}
