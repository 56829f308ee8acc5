//! What holds of every session whose run is recorded (dap_record): where it is, and where going back leads.
ghost use Rattle.std.specs.Prelude.{◌≡◌, ◌-◌, ◌∷◌, ℕ, List, Bool, true, false, Option, Some};
ghost use Rattle.lab_core.specs.declared.answer.End.{End};
ghost use Rattle.base_text.specs.Bytes.{Text};
ghost use Rattle.dap_messages.specs.declared.message.ValueFormat.{ValueFormat};
ghost use Rattle.dap_requests.specs.declared.request.EditorCommand.TheVariants as editor;
ghost use Rattle.dap_requests.specs.declared.request.EvaluateContext.TheVariants as context;
ghost use Rattle.dap_requests.specs.declared.request.EditorRequest.{EditorRequest};
ghost use Rattle.dap_requests.specs.declared.request.RequestContent.TheVariants as asked;
ghost use Rattle.dap_requests.specs.declared.request.RequestContent.{RequestContent};
ghost use Rattle.dap_slice.specs.declared.conditions.ConditionalBreakpoint.{ConditionalBreakpoint};
ghost use Rattle.dap_slice.specs.Tallies.{is_any_full};
ghost use Rattle.dap_search.specs.declared.goal.Goal.{Goal};
ghost use Rattle.dap_search.specs.Recounts.{after_hits_from};
ghost use Rattle.dap_launch.specs.declared.file.FileText.{FileText};
ghost use Rattle.dap_run.specs.Messages.{response, as_messages};
ghost use Rattle.dap_session.specs.States.{SessionState};
ghost use Rattle.dap_session.specs.Rewinds.{after_search};
ghost use Rattle.dap_session.specs.Slices.{after_slice_in, slice_end_in};
ghost use Rattle.dap_session.specs.Slices.{caller_of};
ghost use Rattle.dap_session.specs.Laws.{callers_answered, console_of, shown_by, shown_for, SameParts};
ghost use Rattle.dap_session.specs.Laws.{EndIsTold};
ghost use Rattle.dap_requests.specs.declared.traits.MidSearch.TheVariants as mid;
ghost use Rattle.dap_requests.specs.Traits.{mid_search};
ghost use Rattle.dap_record.specs.Recordings.{Recording, RecordedState, recorded_before_requests};
ghost use Rattle.dap_record.specs.Turns.{turn};
ghost use Rattle.dap_record.specs.Slices.{Input, meant_by, request_told, slice_told, slice_limit, play_all};
ghost use Rattle.dap_record.specs.Slices.{recorded_slice};
ghost use Rattle.dap_laws.specs.Recorded.{after_all, IsRecordingOf, IsRecordingOfIf, IsSamePlaceIf};
ghost use Rattle.dap_laws.specs.Recorded.{MeetsGoal};
ghost use Rattle.dap_laws.specs.Recorded.{callers_asking, all_written, RefusalLeaves, tried_again};
ghost use Rattle.dap_laws.specs.Recorded.{EndsAreTold, EndsNext, session_told, WatchesOnlyLook};

/// At every moment the board is the one that the recorded run has after so many steps: machine, devices and
/// trace are the same. A run is recorded only while it can go back.
pub fn board_is_run()
    ensures { (inputs : List Input)
        → IsRecordingOfIf (after_all inputs).recording (after_all inputs).session }
{}

/// Going back and forth is nothing: at the same place of the same run, the machine, the devices and the trace
/// are the same.
pub fn same_place_same_board()
    ensures { (inputs others : List Input)
        → IsSamePlaceIf (after_all inputs).recording (after_all others).recording
        → SameParts (after_all inputs).session.board (after_all others).session.board }
{}

/// A search that finds its goal puts the run to the last count of steps before now at which it passes, or to
/// its start if it passes at none.
pub fn search_meets()
    ensures { (goal : Goal) (r : Recording) (v : RecordedState)
        → v.search ≡ Some goal → v.recording ≡ Some r
        → MeetsGoal goal r v.session (slice_told true v) }
{}

/// A slice counts the hits of the recorded run's steps from there on, in order.
pub fn slices_count_hits()
    ensures { (r : Recording) (s : SessionState) → IsRecordingOf r s
        → (recorded_slice (slice_end_in (slice_limit r) s) r s).state.session.settings.conditional
        ≡ after_hits_from s.settings.conditional r.start r.log s.board r.count
        (slice_end_in (slice_limit r) s).0 }
{}

/// Breakpoints that counted the hits of the run's steps from a count on, and none of which is full, have the
/// counts that they had there once a search has put the run back to it.
pub fn counts_go_back()
    ensures { (points : List ConditionalBreakpoint) (r : Recording) (s : SessionState) (count : ℕ)
        → s.settings.conditional ≡ after_hits_from points r.start r.log s.board count (r.count - count)
        → is_any_full s.settings.conditional ≡ false
        → (after_search r.start r.log r.count count s).settings.conditional ≡ points }
{}

/// Each request has one response, in the order in which they came, with its number and its command.
pub fn requests_are_answered()
    ensures { (inputs : List Input) (v : RecordedState)
        → callers_answered (play_all inputs v).messages ≡ callers_asking inputs }
{}

/// The response to a request goes out before the events that it causes.
pub fn response_is_first()
    ensures { (r : EditorRequest) (found : Option FileText) (v : RecordedState)
        → (request_told r found v).messages ≡ response (caller_of r) (turn (meant_by r v) found v).outcome
        ∷ as_messages (turn (meant_by r v) found v).events }
{}

/// A request that is refused leaves the board, the program, the breakpoints, the recording and the search as
/// they were.
pub fn refusals_leave_all()
    ensures { (inputs : List Input) (a : RequestContent) (found : Option FileText)
        → RefusalLeaves (after_all inputs) (turn a found (after_all inputs)) }
{}

/// At every moment the events have told whether the run on the board is stopped, also while it goes back.
pub fn stops_are_told()
    ensures { (inputs : List Input)
        → shown_by (play_all inputs recorded_before_requests).messages
        ≡ shown_for (after_all inputs).session.board.run }
{}

/// A run is on the board exactly while a program has begun and isn't over. Without a live program nothing but
/// a launch or a restart tells more than its response. Where a live program ends `terminated` goes out once,
/// and nowhere else.
pub fn end_is_told()
    ensures { (inputs : List Input) → EndsAreTold (after_all inputs) }
{}

/// A request that only looks leaves the board, the recording and the search as they were.
pub fn looks_leave_all()
    ensures { (inputs : List Input) (a : RequestContent) (found : Option FileText)
        → mid_search a ≡ mid.Look
        → (turn a found (after_all inputs)).state ≡ tried_again (after_all inputs) }
{}

/// A hover leaves the board, the recording and the search as they were.
pub fn hovers_leave_all()
    ensures { (inputs : List Input) (r : EditorRequest) (found : Option FileText) (line : Text)
        (format : ValueFormat) → r.asked ≡ asked.Editor (editor.Evaluate line context.Other format)
        → (request_told r found (after_all inputs)).state ≡ tried_again (after_all inputs) }
{}

/// So does a watch, unless the launch lets it be a line of the prompt.
pub fn watches_leave_all()
    ensures { (inputs : List Input) (r : EditorRequest) (found : Option FileText) (line : Text)
        (format : ValueFormat) → WatchesOnlyLook (after_all inputs)
        → r.asked ≡ asked.Editor (editor.Evaluate line context.Watch format)
        → (request_told r found (after_all inputs)).state ≡ tried_again (after_all inputs) }
{}

/// What goes out as standard output is every byte that the run's steps write by OUT 1, in order. Steps that a
/// run makes again, since it went back, add nothing.
pub fn output_is_told_once()
    ensures { (inputs : List Input) (v : RecordedState)
        → console_of (play_all inputs v).messages ≡ all_written inputs v }
{}

/// What a slice tells last, where a recorded run ends, is how it ended. The machine, the devices and the
/// trace are as the run left them, and a run that is held there has that exit code once it goes on.
pub fn end_is_told_as_it_was()
    ensures { (how : End) (r : Recording) (v : RecordedState) (finds : Bool) → EndsNext how r v
        → EndIsTold how v.session (after_slice_in (slice_limit r) v.session)
        (session_told (slice_told finds v)) }
{}
