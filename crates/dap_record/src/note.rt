//! The recording after a request that doesn't go back.
ghost use Rattle.std.specs.Prelude.{◌≡◌, ◌++◌, Option, Some, true, nat_lt, IfOk, OnOk};
ghost use Rattle.dap_requests.specs.declared.request.RequestContent.{RequestContent};
ghost use Rattle.dap_launch.specs.declared.file.FileText.{FileText};
ghost use Rattle.dap_run.specs.declared.messages.RequestId.{RequestId};
ghost use Rattle.dap_session.specs.States.{SessionState};
ghost use Rattle.dap_session.specs.Represents.{RepresentsSession};
ghost use Rattle.dap_session.specs.Laws.{SameParts};
ghost use Rattle.dap_session.specs.Rewinds.{can_go_back};
ghost use Rattle.dap_record.specs.Recordings.{Recording, RecordedState, new_recording, kept_while};
ghost use Rattle.dap_record.specs.Recordings.{with_input_now};
ghost use Rattle.dap_record.specs.Turns.{forgotten_messages};
ghost use Rattle.dap_record.specs.Represents.{RepresentsRecording, RepresentsRecordingIf};
ghost use Rattle.dap_record.specs.Noting.{IsBefore, IsAnswered, NotesTurn, IsAfterInput};
ghost use Rattle.dap_record.specs.Noting.{IsAfterInputIf, NotesInput, may_begin, input_in};

use crate::input::{forgotten_line, record};
use crate::recording::RunRecording;
use base_text::sequence::Sequence;
use dap_history::input::Input;
use dap_messages::message::{EditorEvent, Message, OutputCategory};
use dap_prompt::outcome::{Effect, RequestOutcome};
use dap_session::session::Session;
use std::alloc::{AllocError, Global};

/// What is known before a request: whether the run could go back, and the recording.
#[derive(Drop)]
pub(crate) struct Before {
    pub could: bool,
    pub recording: Option<RunRecording>,
}

/// What is told of a request, and the recording after it, if the run can go back.
#[derive(Drop)]
pub(crate) struct Noted {
    pub messages: Sequence<Message>,
    pub recording: Option<RunRecording>,
}

// A run may have begun, and is recorded from there.
fn begin(alloc: Global, session: &Session, messages: Sequence<Message>) -> Result<Noted, AllocError>
    ensures messages { IfOk result (λ noted. noted.messages ≡ messages) }
    ensures recording { (s : SessionState) → RepresentsSession session.now s → IfOk result (λ noted.
        RepresentsRecordingIf noted.recording (kept_while s (Some (new_recording s.board))) s) }
{
    if !session.can_go_back() {
        return Ok(Noted {
            messages,
            recording: None,
        });
    }
    let history = session.begin_history(alloc)?;
    Ok(Noted {
        messages,
        recording: Some(RunRecording {
            history,
            count: 0,
            told: 0,
        }),
    })
}

// The recording of a run that was not changed, while it can go back.
fn keep(session: &Session, recording: RunRecording) -> Option<RunRecording>
    ensures { (r : Recording) (before s : SessionState) → RepresentsSession session.now s
        → RepresentsRecording recording r before → (can_go_back s ≡ true → SameParts before.board s.board)
        → RepresentsRecordingIf result (kept_while s (Some r)) s }
{
    if session.can_go_back() {
        return Some(recording);
    }
    drop(recording);
    None
}

// Adds the line that something is forgotten, if it is.
fn tell_forgotten(
    alloc: Global,
    forgets: bool,
    count: u64,
    messages: &mut Sequence<Message>,
) -> Result<(), AllocError>
    ensures { OnOk result (messages.new ≡ messages.old ++ forgotten_messages forgets count) }
{
    if !forgets {
        return Ok(());
    }
    let bytes = forgotten_line(alloc, count)?;
    messages.push(Message::Event(EditorEvent::Output {
        category: OutputCategory::Console,
        bytes,
        place: None,
    }))
}

// The recording of a run to which an input came, while it can go back.
fn record_while(
    session: &Session,
    recording: RunRecording,
    input: Input,
) -> Result<Option<RunRecording>, AllocError>
    ensures { (r : Recording) (before s : SessionState) → RepresentsSession session.now s
        → RepresentsRecording recording r before → IsAfterInput input before s → IfOk result
        (λ after. RepresentsRecordingIf after (kept_while s (with_input_now input r)) s) }
{
    if session.can_go_back() {
        return record(recording, input);
    }
    drop(recording);
    drop(input);
    Ok(None)
}

// An input came to the run.
fn note(
    alloc: Global,
    session: &Session,
    recording: RunRecording,
    input: Input,
    messages: Sequence<Message>,
) -> Result<Noted, AllocError>
    ensures messages { IfOk result (λ noted. noted.messages
        ≡ messages ++ forgotten_messages (nat_lt recording.count recording.told) recording.count) }
    ensures recording { (r : Recording) (before s : SessionState) → RepresentsSession session.now s
        → RepresentsRecording recording r before → IsAfterInput input before s → IfOk result
        (λ noted. RepresentsRecordingIf noted.recording (kept_while s (with_input_now input r)) s) }
{
    let mut messages = messages;
    tell_forgotten(alloc, recording.is_behind(), recording.count, &mut messages)?;
    let recording = record_while(session, recording, input)?;
    Ok(Noted {
        messages,
        recording,
    })
}

// Whether a run may have begun by a request that did this.
fn may_begin(effect: &Effect, could: bool) -> bool
    ensures { result ≡ may_begin effect.now could }
{
    match effect {
        Effect::Refused => false,
        Effect::Loaded => true,
        Effect::Changed(_) | Effect::Answered => !could,
    }
}

// The input that came.
fn input_in(effect: Effect) -> Option<Input>
    ensures { result ≡ input_in effect }
{
    match effect {
        Effect::Changed(input) => Some(input),
        Effect::Refused | Effect::Loaded | Effect::Answered => None,
    }
}

// The recording of a run that didn't begin now.
fn settle_input(
    alloc: Global,
    session: &Session,
    recording: Option<RunRecording>,
    input: Option<Input>,
    messages: Sequence<Message>,
) -> Result<Noted, AllocError>
    ensures { (v : RecordedState) (s : SessionState) → RepresentsRecordingIf recording v.recording v.session
        → RepresentsSession session.now s → IsAfterInputIf input v.session s
        → IfOk result (NotesInput v s input messages) }
{
    let Some(recording) = recording else {
        drop(input);
        return Ok(Noted {
            messages,
            recording: None,
        });
    };
    match input {
        Some(input) => note(alloc, session, recording, input, messages),
        None => {
            let recording = keep(session, recording);
            Ok(Noted {
                messages,
                recording,
            })
        }
    }
}

/// What is told of a request that led to this outcome, and the recording after it.
pub(crate) fn settle(
    alloc: Global,
    session: &Session,
    before: Before,
    outcome: RequestOutcome,
) -> Result<Noted, AllocError>
    ensures { (a : RequestContent) (found : Option FileText) (v : RecordedState) (c : RequestId)
        → IsBefore v before → IsAnswered a found v c outcome session.now
        → IfOk result (NotesTurn a found v c) }
{
    let Before { could, recording } = before;
    let RequestOutcome { messages, effect } = outcome;
    if may_begin(&effect, could) {
        drop(effect);
        drop(recording);
        return begin(alloc, session, messages);
    }
    let input = input_in(effect);
    settle_input(alloc, session, recording, input, messages)
}
