//! What holds of every session of the debugger, recorded or not (dap_session).
ghost use Rattle.std.specs.Prelude.{◌≡◌, [], ◌∷◌, List, Option, true, false};
ghost use Rattle.lab_core.specs.declared.answer.End.{End};
ghost use Rattle.lab_core.specs.declared.answer.SliceOutcome.TheVariants as outcome;
ghost use Rattle.dap_session.specs.Slices.{slice_end_in, after_slice_in};
ghost use Rattle.base_text.specs.Bytes.{Text};
ghost use Rattle.dap_messages.specs.declared.message.ValueFormat.{ValueFormat};
ghost use Rattle.dap_requests.specs.declared.request.RequestContent.TheVariants as asked;
ghost use Rattle.dap_requests.specs.declared.request.EditorCommand.TheVariants as editor;
ghost use Rattle.dap_requests.specs.declared.request.EditorRequest.{EditorRequest};
ghost use Rattle.dap_requests.specs.declared.request.RequestContent.{RequestContent};
ghost use Rattle.dap_requests.specs.declared.request.EvaluateContext.TheVariants as context;
ghost use Rattle.dap_run.specs.Messages.{response, as_messages};
ghost use Rattle.dap_launch.specs.declared.file.FileText.{FileText};
ghost use Rattle.dap_session.specs.States.{SessionState, session_before_requests, wants_slice};
ghost use Rattle.dap_session.specs.Requests.{turn};
ghost use Rattle.dap_session.specs.Slices.{Input, caller_of, request_told, slice_told, play_all};
ghost use Rattle.dap_session.specs.Laws.{callers_answered, callers_asking, console_of, all_written};
ghost use Rattle.dap_session.specs.Laws.{shown_by, shown_for, EndsAreTold, EndIsTold, RefusalLeaves};
ghost use Rattle.dap_session.specs.Laws.{IsWatched, IsTold, IsLook, SameParts, asks_to_load};
ghost use Rattle.dap_prompt.specs.Inputs.{input_of, after_input_if};
ghost use Rattle.dap_session.specs.Rewinds.{RunLasts};

/// Each request has one response, in the order in which they came, with its number and its command.
pub fn requests_are_answered()
    ensures { (inputs : List Input) (s : SessionState)
        → callers_answered (play_all inputs s).messages ≡ callers_asking inputs }
{}

/// The response to a request goes out before the events that it causes.
pub fn response_is_first()
    ensures { (r : EditorRequest) (found : Option FileText) (s : SessionState)
        → (request_told r found s).messages ≡ response (caller_of r) (turn r.asked found s).outcome
        ∷ as_messages (turn r.asked found s).events }
{}

/// What goes out as standard output is every byte that the run's steps write by OUT 1, in order.
pub fn console_is_whole()
    ensures { (inputs : List Input) (s : SessionState)
        → console_of (play_all inputs s).messages ≡ all_written inputs s }
{}

/// An evaluation for a hover or a watch leaves the board as it was.
pub fn looks_keep_board()
    ensures { (expression : Text) (format : ValueFormat) (found : Option FileText) (s : SessionState)
        → (turn (asked.Editor (editor.Evaluate expression context.Other format)) found s).state.board ≡
        s.board }
{}

/// At every moment the events have told whether the run on the board is stopped.
pub fn stops_are_told()
    ensures { (inputs : List Input)
        → shown_by (play_all inputs session_before_requests).messages
        ≡ shown_for (play_all inputs session_before_requests).state.board.run }
{}

/// A run is on the board exactly while a program has begun and isn't over. Without a live program nothing but
/// a launch or a restart tells more than its response. Where a live program ends `terminated` goes out once,
/// and nowhere else.
pub fn end_is_told()
    ensures { (inputs : List Input) → EndsAreTold (play_all inputs session_before_requests).state }
{}

/// What a slice tells last, where the run ends, is how it ended. The machine, the devices and the trace are
/// as the run left them, and a run that is held there has that exit code once it goes on.
pub fn end_is_told_as_it_was()
    ensures { (how : End) (s : SessionState) → wants_slice s ≡ true → s.settings.is_initialized ≡ true
        → (slice_end_in 4096 s).1 ≡ outcome.End how
        → EndIsTold how s (after_slice_in 4096 s) (slice_told s) }
{}

/// A request that is refused leaves the board, the program and the breakpoints as they were.
pub fn refusals_leave_all()
    ensures { (a : RequestContent) (found : Option FileText) (s : SessionState)
        → RefusalLeaves s (turn a found s).outcome (turn a found s).state }
{}

/// An editor that understands `invalidated` is told by it of each change by hand of a live program; that PC
/// was set it is told by `stopped`.
pub fn changes_are_told()
    ensures { (a : RequestContent) (found : Option FileText) (s : SessionState)
        → IsWatched a s (turn a found s).state → IsTold s (turn a found s).events (turn a found s).state }
{}

/// What a request makes of a run that lasts through it is its input, and nothing else.
pub fn runs_change_by_inputs()
    ensures { (a : RequestContent) (found : Option FileText) (s : SessionState) → asks_to_load a ≡ false
        → RunLasts s (turn a found s)
        → SameParts (after_input_if (input_of a s.board) s.board) (turn a found s).state.board }
{}

/// A look tells nothing beside its response.
pub fn looks_tell_nothing()
    ensures { (a : RequestContent) (found : Option FileText) (s : SessionState)
        → IsLook a → (turn a found s).events ≡ [] }
{}
