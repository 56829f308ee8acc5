//! Slices of a recorded run.
ghost use Rattle.std.specs.Prelude.{◌≡◌, Some, IfOk, OnOk, true};
ghost use Rattle.dap_history.specs.Logs.{up_to};
ghost use Rattle.dap_session.specs.States.{SessionState, with_board, wants_slice};
ghost use Rattle.dap_session.specs.Represents.{RepresentsSession};
ghost use Rattle.dap_record.specs.Recordings.{Recording, after_inputs, kept_while};
ghost use Rattle.dap_record.specs.Slices.{new_messages, is_output};
ghost use Rattle.dap_record.specs.Represents.{RepresentsRecording, RepresentsRecordingIf, IsAt};
ghost use Rattle.dap_record.specs.Represents.{MakesRecordedSlice};

use crate::recording::RunRecording;
use base_text::sequence::Sequence;
use dap_history::input::Recorded;
use dap_messages::message::{EditorEvent, Message};
use dap_session::session::{RunSlice, Session};
use std::alloc::{AllocError, Global};

/// What is told of a slice, and the recording after it, if the run can still go back.
#[derive(Drop)]
pub(crate) struct RecordedSlice {
    pub messages: Sequence<Message>,
    pub recording: Option<RunRecording>,
}

fn is_output(message: &Message) -> bool
    ensures { result ≡ is_output message.now }
{
    matches!(message, Message::Event(EditorEvent::Output { .. }))
}

// Output isn't told twice.
fn new_messages(is_behind: bool, messages: Sequence<Message>) -> Sequence<Message>
    ensures { result ≡ new_messages is_behind messages }
{
    if !is_behind {
        return messages;
    }
    let mut rest = messages.into_vec();
    rest.retain(|message| !is_output(message));
    Sequence::from(rest)
}

// Makes those of these inputs again that came after at most `count` steps.
fn redo_up_to(
    alloc: Global,
    session: &mut Session,
    inputs: &[Recorded],
    count: u64,
) -> Result<(), AllocError>
    ensures { (s : SessionState) → RepresentsSession session.old s → OnOk result
        (RepresentsSession session.new (with_board (after_inputs (up_to count inputs.now) s.board) s)) }
{
    for recorded in inputs {
        if recorded.count <= count {
            session.redo(alloc, &recorded.input)?;
        }
    }
    Ok(())
}

// The recording, with its moment if one is due, while the run can go back.
fn keep(session: &Session, mut recording: RunRecording) -> Option<RunRecording>
    ensures { (r : Recording) (s : SessionState) → RepresentsSession session.now s
        → IsAt recording r s → RepresentsRecordingIf result (kept_while s (Some r)) s }
{
    if !session.can_go_back() {
        drop(recording);
        return None;
    }
    session.save_moment(&mut recording.history, recording.count);
    Some(recording)
}

/// Makes a slice of a recorded run that goes on, and the inputs that come then.
pub(crate) fn run_recorded(
    alloc: Global,
    session: &mut Session,
    mut recording: RunRecording,
) -> Result<RecordedSlice, AllocError>
    requires { (s : SessionState) → RepresentsSession session.old s → wants_slice s ≡ true }
    ensures { (r : Recording) (s : SessionState) → RepresentsSession session.old s
        → RepresentsRecording recording r s
        → IfOk result (λ slice. MakesRecordedSlice r s slice session.new) }
{
    let is_behind = recording.is_behind();
    let RunSlice { messages, executed } = session.run_within(alloc, recording.slice_limit())?;
    let Some(count) = recording.count.checked_add(executed.into()) else {
        return Err(AllocError);
    };
    let ahead = recording.history.later_than(recording.count);
    redo_up_to(alloc, session, ahead, count)?;
    recording.count = count;
    recording.told = recording.told.max(count);
    Ok(RecordedSlice {
        messages: new_messages(is_behind, messages),
        recording: keep(session, recording),
    })
}
