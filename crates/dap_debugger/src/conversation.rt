//! A conversation with an editor.
ghost use Rattle.std.specs.Prelude.{◌≡◌, ◌++◌, ◌∷◌, [], List, OnOk, IfOk, IfErr};
ghost use Rattle.base_text.specs.Bytes.{Bytes};
ghost use Rattle.base_streams.specs.States.{OutletState};
ghost use Rattle.dap_debugger.specs.Paths.{path_in};
ghost use Rattle.dap_session.specs.Requests.{wanted_file};
ghost use Rattle.dap_record.specs.Recordings.{RecordedState};
ghost use Rattle.dap_record.specs.Represents.{RepresentsRecorded};
ghost use Rattle.dap_record.specs.Slices.{Input};
ghost use Rattle.dap_debugger.specs.Debuggers.{Past, PastSlice};
ghost use Rattle.dap_debugger.specs.Conversations.{Ports, IsCanonical, IsResolved, IsFound, Answers};
ghost use Rattle.dap_debugger.specs.Conversations.{Writes, FailsToWrite};
ghost use Rattle.dap_debugger.specs.Conversations.{HasConversed, HasAnswered, Converses, ports};

use crate::debugger::Debugger;
use crate::incoming::{BodySource, Incoming, ProgramFiles, StreamEnd};
use crate::paths::{named_path, with_canonical};
use crate::requests::read_request;
use base_streams::ports::Outlet;
use base_streams::writing::write_all;
use base_text::text::Text;
use dap_launch::file::FileText;
use dap_requests::request::EditorRequest;
use std::alloc::{AllocError, Global};
use std::sync::Wait;

/// Why a conversation ended.
#[derive(Clone, Copy, PartialEq, Eq)]
pub enum ConversationEnd {
    /// A disconnect was answered.
    Disconnected,
    /// All requests were answered, and no more come.
    Stream(StreamEnd),
    OutOfMemory,
    WriteFailed,
}

// The canonical path of the file that a request names, if it names one that has such a path.
fn find_canonical<F: ProgramFiles>(
    alloc: Global,
    files: &F,
    request: &EditorRequest,
) -> Result<Option<Text>, AllocError>
    ensures { IfOk result (IsCanonical (F.known files.now) (path_in request.now.asked)) }
{
    match named_path(request) {
        Some(path) => files.canonical(alloc, path),
        None => Ok(None),
    }
}

// The request with the canonical path of the file that it names, if the file has one.
fn resolve<F: ProgramFiles>(
    alloc: Global,
    files: &F,
    request: EditorRequest,
) -> Result<EditorRequest, AllocError>
    ensures { IfOk result (IsResolved (F.known files.now) request) }
{
    match find_canonical(alloc, files, &request) {
        Ok(path) => Ok(with_canonical(request, path)),
        Err(error) => {
            drop(request);
            Err(error)
        }
    }
}

// What is found at the path that a request needs, if it needs one.
fn find_file<F: ProgramFiles>(
    alloc: Global,
    debugger: &Debugger,
    files: &F,
    request: &EditorRequest,
) -> Result<Option<FileText>, AllocError>
    ensures { (v : RecordedState) → RepresentsRecorded debugger.now.session v → IfOk result
        (IsFound (F.known files.now) (wanted_file request.now.asked v.session)) }
{
    match debugger.session().wanted_file(request) {
        Some(path) => Ok(Some(files.read(alloc, path)?)),
        None => Ok(None),
    }
}

// Answers the request in a body.
fn answer_body<F: ProgramFiles>(
    alloc: Global,
    debugger: &mut Debugger,
    files: &F,
    body: &[u8],
) -> Result<(), AllocError>
    ensures { OnOk result (Answers (F.known files.now) body.now debugger.old debugger.new) }
{
    let request = read_request(alloc, debugger.numbering(), body)?;
    let request = resolve(alloc, files, request)?;
    match find_file(alloc, debugger, files, &request) {
        Ok(file) => debugger.answer(alloc, request, file),
        Err(error) => {
            drop(request);
            Err(error)
        }
    }
}

// Makes a slice of the run, if one goes on.
fn run_on(alloc: Global, debugger: &mut Debugger) -> Result<(), AllocError>
    ensures { (inputs : List Input) (bytes : Bytes) → Past debugger.old inputs bytes
        → OnOk result (PastSlice debugger.new inputs bytes) }
{
    if debugger.session().wants_slice() {
        debugger.run(alloc)
    } else {
        Ok(())
    }
}

// Answers what the source gives next, and makes a slice of the run, if one goes on.
fn answer_next<S: BodySource, F: ProgramFiles>(
    alloc: Global,
    debugger: &mut Debugger,
    source: &mut S,
    files: &F,
) -> Result<(), ConversationEnd>
    ensures ok { (start : Ports) (outlet : OutletState)
        → HasConversed (F.known files.now) start (ports (S.given source.old) outlet) debugger.old
        → OnOk result (HasAnswered (F.known files.now) start
        (ports (S.given source.new) outlet) debugger.new) }
    ensures err { (start : Ports) (outlet : OutletState)
        → HasConversed (F.known files.now) start (ports (S.given source.old) outlet) debugger.old
        → IfErr result (Converses (F.known files.now) start (ports (S.given source.new) outlet)) }
{
    let is_running = debugger.session().wants_slice();
    match source.next(is_running) {
        Incoming::Body(body) => match answer_body(alloc, debugger, files, body.as_slice()) {
            Ok(()) => match run_on(alloc, debugger) {
                Ok(()) => Ok(()),
                Err(_) => Err(ConversationEnd::OutOfMemory),
            },
            Err(_) => Err(ConversationEnd::OutOfMemory),
        },
        Incoming::Nothing => match run_on(alloc, debugger) {
            Ok(()) => Ok(()),
            Err(_) => Err(ConversationEnd::OutOfMemory),
        },
        Incoming::End(end) => Err(ConversationEnd::Stream(end)),
    }
}

// Writes the messages that wait to be sent.
fn write_messages<W: Outlet>(
    alloc: Global,
    debugger: &mut Debugger,
    outlet: &mut W,
) -> Result<(), ConversationEnd>
    ensures ok { OnOk result (Writes debugger.old debugger.new (W.state outlet.old) (W.state outlet.new)) }
    ensures err { IfErr result
        (FailsToWrite debugger.old debugger.new (W.state outlet.old) (W.state outlet.new)) }
{
    let Ok(bytes) = debugger.send(alloc) else {
        return Err(ConversationEnd::OutOfMemory);
    };
    match write_all(outlet, bytes.as_slice()) {
        Ok(()) => Ok(()),
        Err(_) => Err(ConversationEnd::WriteFailed),
    }
}

// Answers what the source gives next, makes a slice of the run, if one goes on, and writes the messages.
fn round<S: BodySource, F: ProgramFiles, W: Outlet>(
    alloc: Global,
    debugger: &mut Debugger,
    source: &mut S,
    files: &F,
    outlet: &mut W,
) -> Result<(), ConversationEnd>
    ensures ok { (start : Ports)
        → HasConversed (F.known files.now) start
        (ports (S.given source.old) (W.state outlet.old)) debugger.old
        → OnOk result (HasConversed (F.known files.now) start
        (ports (S.given source.new) (W.state outlet.new)) debugger.new) }
    ensures err { (start : Ports)
        → HasConversed (F.known files.now) start
        (ports (S.given source.old) (W.state outlet.old)) debugger.old
        → IfErr result (Converses (F.known files.now) start
        (ports (S.given source.new) (W.state outlet.new))) }
{
    match answer_next(alloc, debugger, source, files) {
        Ok(()) => {}
        Err(end) => return Err(end),
    }
    match write_messages(alloc, debugger, outlet) {
        Ok(()) => {}
        Err(end) => return Err(end),
    }
    if debugger.session().has_ended() {
        return Err(ConversationEnd::Disconnected);
    }
    Ok(())
}

/// Converses with an editor until the conversation ends: answers each body, makes a slice of the run between
/// two bodies, and writes the messages at once.
pub fn converse<R: Wait, S: BodySource, F: ProgramFiles, W: Outlet>(
    rt: &R,
    alloc: Global,
    source: &mut S,
    files: &F,
    outlet: &mut W,
) -> ConversationEnd
    ensures { Converses (F.known files.now) (ports (S.given source.old) (W.state outlet.old))
        (ports (S.given source.new) (W.state outlet.new)) result }
{
    let Ok(mut debugger) = Debugger::new(alloc) else {
        return ConversationEnd::OutOfMemory;
    };
    for _ in rt.forever() {
        match round(alloc, &mut debugger, source, files, outlet) {
            Ok(()) => {}
            Err(end) => return end,
        }
    }
    unreachable!()
}
