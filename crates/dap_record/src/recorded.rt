//! A session whose run is recorded.
ghost use Rattle.std.specs.Prelude.{◌≡◌, None, IfOk, option_map};
ghost use Rattle.dap_session.specs.Requests as requests;
ghost use Rattle.dap_session.specs.Slices.{caller_of};
ghost use Rattle.dap_record.specs.Recordings.{RecordedState, recorded_before_requests};
ghost use Rattle.dap_record.specs.Backward.{going_back, going_back_from};
ghost use Rattle.dap_requests.specs.Traits.{mid_search};
ghost use Rattle.dap_record.specs.Turns.{turn, turn_of, recorded_turn, back_in, turn_by, turn_searching};
ghost use Rattle.dap_record.specs.Turns.{looking, pausing, refusing_now};
ghost use Rattle.dap_record.specs.Slices.{request_told, run_told, goes_on, told_in, meant_by};
ghost use Rattle.dap_record.specs.Represents.{RepresentsRecorded, TellsAs, TellsSlice, RepliesAs};
ghost use Rattle.dap_record.specs.Represents.{RepliesFrom, IsRecorded, RepresentsSome, IsSearched, TellsPart};
ghost use Rattle.dap_record.specs.Noting.{IsBefore};

use crate::back::{Back, back_of};
use crate::note::{Before, Noted, settle};
use crate::recording::RunRecording;
use crate::search::{GoalSearch, SearchPart, search_on};
use crate::slice::{RecordedSlice, run_recorded};
use crate::travel::{Departure, go_back};
use base_text::sequence::Sequence;
use dap_answers::answer::StopReason;
use dap_launch::file::FileText;
use dap_messages::message::{EditorStop, Message};
use dap_prompt::inputs::as_meant;
use dap_requests::request::EditorRequest;
use dap_requests::traits::{MidSearch, traits_of};
use dap_run::messages::{FollowUp, Messages, RequestId};
use dap_run::refusals::board_refusal;
use dap_run::reply::{Reply, accept, refuse};
use dap_session::session::Session;
use lab_core::fault::EventFault;
use std::alloc::{AllocError, Global};
use std::marker::Model;

/// A debugger's session, the recording of its run if that can go back, and the search for where it is to go,
/// while that goes on. It represents some state.
pub struct RecordedSession {
    session: Session,
    recording: Option<RunRecording>,
    search: Option<GoalSearch>,
}

// One function for all places where a session is dropped, here and in the crates above.
impl Drop for RecordedSession {
    fn drop(self) {
        let Self {
            session: _,
            recording: _,
            search: _,
        } = self;
    }
}

impl Model for RecordedSession {
    ghost use Rattle.std.specs.Coded.{codes};
    ghost use Rattle.asm_expr.specs.contracts.expression.Expr as expr;
    ghost use Rattle.dap_record.specs.Fields.{RecordedFields};
    ghost use Rattle.dap_record.specs.Represents.{RepresentsSome};

    ghost Value = { RecordedFields };

    ghost coded = { Prim.hlevel (codes, expr.the_row.coded) };

    ghost view = { λ r. record { session = r.session; recording = r.recording; search = r.search } };

    ghost invariant = { λ r. RepresentsSome (record {
      session = r.session;
      recording = r.recording;
      search = r.search;
    }) };
}

// The request that is answered.
fn caller_of(request: EditorRequest) -> RequestId
    ensures { result ≡ caller_of request }
{
    let (seq, command, asked) = request.into_parts();
    drop(asked);
    RequestId { seq, command }
}

impl RecordedSession {
    /// A session before its first request.
    pub fn new(alloc: Global) -> Result<RecordedSession, AllocError>
        ensures { IfOk result (λ session. RepresentsRecorded session recorded_before_requests) }
    {
        let session = Session::new(alloc)?;
        Ok(RecordedSession {
            session,
            recording: None,
            search: None,
        })
    }

    /// Answers a request: returns its response and the events behind it. `file` is what was found at the
    /// path that the request needs (`wanted_file`). If memory runs out the session can't be used any more.
    pub fn take(
        &mut self,
        alloc: Global,
        request: EditorRequest,
        file: Option<FileText>,
    ) -> Result<Sequence<Message>, AllocError>
        ensures { TellsAs (request_told request file) self.old result self.new }
    {
        let request = self.meant(request);
        self.take_meant(alloc, request, file)
    }

    // The request that is meant, since a watch may be a line of the prompt.
    fn meant(&self, request: EditorRequest) -> EditorRequest
        ensures { (v : RecordedState) → RepresentsRecorded self.now v
            → result ≡ record request { asked = meant_by request v } }
    {
        let (seq, command, asked) = request.into_parts();
        EditorRequest {
            seq,
            command,
            asked: as_meant(asked, self.session.has_watch_commands()),
        }
    }

    fn take_meant(
        &mut self,
        alloc: Global,
        request: EditorRequest,
        file: Option<FileText>,
    ) -> Result<Sequence<Message>, AllocError>
        ensures { TellsAs (λ v. told_in (caller_of request) (turn request.asked file v)) self.old result
            self.new }
    {
        if self.search.is_some() {
            self.take_searching(alloc, request, file)
        } else {
            self.take_idle(alloc, request, file)
        }
    }

    // Answers a request while no search goes on.
    fn take_idle(
        &mut self,
        alloc: Global,
        request: EditorRequest,
        file: Option<FileText>,
    ) -> Result<Sequence<Message>, AllocError>
        requires { self.old.search ≡ None }
        ensures { TellsAs (λ v. told_in (caller_of request)
            (turn_by (back_in request.asked v.session) request.asked file v)) self.old result self.new }
    {
        match self.back_in(&request) {
            Some(back) => {
                drop(file);
                self.take_back(alloc, request, back)
            }
            None => self.take_recorded(alloc, request, file),
        }
    }

    // Answers a request while a search goes on.
    fn take_searching(
        &mut self,
        alloc: Global,
        request: EditorRequest,
        file: Option<FileText>,
    ) -> Result<Sequence<Message>, AllocError>
        ensures { TellsAs (λ v. told_in (caller_of request)
            (turn_searching (mid_search request.asked) request.asked file v)) self.old result self.new }
    {
        match traits_of(&request.asked).mid_search {
            MidSearch::Look => self.take_look(alloc, request, file),
            MidSearch::Pause => {
                drop(file);
                self.take_pause(alloc, request)
            }
            MidSearch::End => {
                self.end_search();
                self.take_recorded(alloc, request, file)
            }
            MidSearch::Other => {
                drop(file);
                self.refuse_now(alloc, request)
            }
        }
    }

    // Answers a request that only looks; the search goes on.
    fn take_look(
        &mut self,
        alloc: Global,
        request: EditorRequest,
        file: Option<FileText>,
    ) -> Result<Sequence<Message>, AllocError>
        requires { mid_search request.asked ≡ MidSearch.Look }
        ensures { TellsAs (λ v. told_in (caller_of request)
            (looking v (requests.turn request.asked file v.session))) self.old result self.new }
    {
        self.session.tell(alloc, request, file)
    }

    // Ends the search; the run stays where it was.
    fn take_pause(
        &mut self,
        alloc: Global,
        request: EditorRequest,
    ) -> Result<Sequence<Message>, AllocError>
        ensures { TellsAs (λ v. told_in (caller_of request) (turn_of (pausing v)))
            self.old result self.new }
    {
        let messages = Messages::new(alloc)?;
        self.end_search();
        let stop = EditorStop::Board(StopReason::Pause);
        let Reply { outcome, follow } = accept(FollowUp::Stopped(stop));
        Ok(messages.turn(caller_of(request), outcome, follow))
    }

    // Refuses a request that can't be carried out while a search goes on.
    fn refuse_now(
        &mut self,
        alloc: Global,
        request: EditorRequest,
    ) -> Result<Sequence<Message>, AllocError>
        ensures { TellsAs (λ v. told_in (caller_of request) (turn_of (refusing_now v)))
            self.old result self.new }
    {
        let messages = Messages::new(alloc)?;
        let Reply { outcome, follow } = refuse(alloc, "the run is going back: pause it first")?;
        Ok(messages.turn(caller_of(request), outcome, follow))
    }

    fn end_search(&mut self)
        ensures { self.new ≡ record self.old { search = None } }
    {
        self.search = None;
    }

    // How the run is to go back, if a request asks for that.
    fn back_in(&self, request: &EditorRequest) -> Option<Back>
        ensures { (v : RecordedState) → RepresentsRecorded self.now v
            → result ≡ back_in request.now.asked v.session }
    {
        if self.session.is_initialized() {
            back_of(&request.asked)
        } else {
            None
        }
    }

    // Answers a request that goes back.
    fn take_back(
        &mut self,
        alloc: Global,
        request: EditorRequest,
        back: Back,
    ) -> Result<Sequence<Message>, AllocError>
        requires { self.old.search ≡ None }
        ensures { TellsAs (λ v. told_in (caller_of request) (turn_of (going_back back v)))
            self.old result self.new }
    {
        let messages = Messages::new(alloc)?;
        let Reply { outcome, follow } = self.reply_back(alloc, back)?;
        Ok(messages.turn(caller_of(request), outcome, follow))
    }

    fn reply_back(&mut self, alloc: Global, back: Back) -> Result<Reply, AllocError>
        requires { self.old.search ≡ None }
        ensures { RepliesAs (going_back back) self.old result self.new }
    {
        if matches!(back, Back::Unclear) {
            return refuse(alloc, "a number of steps must follow, or the word start");
        }
        if !(self.session.can_go_back() && self.session.is_stopped()) {
            return refuse(alloc, board_refusal(EventFault::NotStopped));
        }
        match self.recording.take() {
            None => refuse(alloc, "too much was typed or changed for going back"),
            Some(recording) => self.reply_from(alloc, recording, back),
        }
    }

    // Goes back with this recording, which comes back if memory suffices.
    fn reply_from(
        &mut self,
        alloc: Global,
        mut recording: RunRecording,
        back: Back,
    ) -> Result<Reply, AllocError>
        requires { (self.old.recording ≡ None) × (self.old.search ≡ None)
            × IsRecorded recording self.old.session }
        ensures { RepliesFrom back recording self.old.session result self.new }
    {
        if recording.count == 0 {
            self.recording = Some(recording);
            return refuse(alloc, "the run begins here");
        }
        match go_back(alloc, &mut self.session, &mut recording, back) {
            Ok(departure) => {
                let Departure { reply, search } = departure;
                self.recording = Some(recording);
                self.search = search;
                Ok(reply)
            }
            Err(_) => {
                drop(recording);
                self.session.represents_some();
                Err(AllocError)
            }
        }
    }

    // What is known before a request; the recording is taken out for it.
    fn before(&mut self) -> Before
        requires { self.old.search ≡ None }
        ensures before { (v : RecordedState) → RepresentsRecorded self.old v → IsBefore v result }
        ensures session { self.new.session ≡ self.old.session }
        ensures search { self.new.search ≡ self.old.search }
        ensures taken { self.new.recording ≡ None }
        ensures some { RepresentsSome self.old }
    {
        Before {
            could: self.session.can_go_back(),
            recording: self.recording.take(),
        }
    }

    // Answers a request that doesn't go back.
    fn take_recorded(
        &mut self,
        alloc: Global,
        request: EditorRequest,
        file: Option<FileText>,
    ) -> Result<Sequence<Message>, AllocError>
        requires { self.old.search ≡ None }
        ensures { TellsAs (λ v. told_in (caller_of request)
            (recorded_turn request.asked v (requests.turn request.asked file v.session)))
            self.old result self.new }
    {
        let before = self.before();
        let outcome = self.session.take(alloc, request, file)?;
        let noted = settle(alloc, &self.session, before, outcome)?;
        let Noted {
            messages,
            recording,
        } = noted;
        self.recording = recording;
        Ok(messages)
    }

    /// Makes at most 4,096 steps of the run, if one goes on, or searches on for about a millisecond, and
    /// returns what the editor is told of that. If memory runs out the session can't be used any more.
    pub fn run(&mut self, alloc: Global) -> Result<Sequence<Message>, AllocError>
        ensures { TellsSlice self.old result self.new }
    {
        match self.search.take() {
            None => self.run_on(alloc),
            Some(search) => match self.recording.take() {
                None => {
                    drop(search);
                    Ok(Sequence::new(alloc))
                }
                Some(recording) => self.search_from(alloc, recording, search),
            },
        }
    }

    // Makes a slice of the run, if one goes on.
    fn run_on(&mut self, alloc: Global) -> Result<Sequence<Message>, AllocError>
        requires { self.old.search ≡ None }
        ensures { TellsAs run_told self.old result self.new }
    {
        if !self.session.wants_slice() {
            return Ok(Sequence::new(alloc));
        }
        match self.recording.take() {
            None => self.session.run(alloc),
            Some(recording) => match run_recorded(alloc, &mut self.session, recording) {
                Ok(slice) => {
                    let RecordedSlice {
                        messages,
                        recording,
                    } = slice;
                    self.recording = recording;
                    Ok(messages)
                }
                Err(_) => {
                    self.session.represents_some();
                    Err(AllocError)
                }
            },
        }
    }

    // Makes a part of a search with this recording. Both come back if memory suffices.
    fn search_from(
        &mut self,
        alloc: Global,
        mut recording: RunRecording,
        search: GoalSearch,
    ) -> Result<Sequence<Message>, AllocError>
        requires { (self.old.recording ≡ None) × (self.old.search ≡ None)
            × IsSearched recording search self.old.session }
        ensures { TellsPart recording search self.old.session result self.new }
    {
        match search_on(alloc, &mut self.session, &mut recording, search) {
            Ok(part) => {
                let SearchPart { messages, search } = part;
                self.recording = Some(recording);
                self.search = search;
                Ok(messages)
            }
            Err(_) => {
                drop(recording);
                self.session.represents_some();
                Err(AllocError)
            }
        }
    }

    /// Whether `run` has something to do.
    pub fn wants_slice(&self) -> bool
        ensures { (v : RecordedState) → RepresentsRecorded self.now v
            → result ≡ goes_on v }
    {
        self.search.is_some() || self.session.wants_slice()
    }

    /// The path whose text a request needs: that of a launch, or for a restart that of the program.
    pub fn wanted_file<'a>(&'a self, request: &'a EditorRequest) -> Option<&'a str>
        ensures { (v : RecordedState) → RepresentsRecorded self.now v
            → option_map (λ path. path.now) result ≡ requests.wanted_file request.now.asked v.session }
    {
        self.session.wanted_file(request)
    }

    /// Whether a `disconnect` was answered.
    pub fn has_ended(&self) -> bool
        ensures { (v : RecordedState) → RepresentsRecorded self.now v
            → result ≡ v.session.settings.has_ended }
    {
        self.session.has_ended()
    }
}
