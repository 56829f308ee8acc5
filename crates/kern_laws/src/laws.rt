//! Laws of the definitions: what holds of every list of calls.
ghost use Rattle.std.specs.Prelude.{◌≡◌, ◌≢◌, ◌≤◌, ◌↔◌, ℕ, List, true, codes};
ghost use Rattle.std.specs.List.{All, Any, list_any, filter_map};
ghost use Rattle.base_text.specs.Bytes.{Bytes, Text};
ghost use Rattle.lab_core.specs.Events.{Fits};
ghost use Rattle.kern_peers.specs.declared.peer.Peer.{Peer};
ghost use Rattle.kern_peers.specs.Connections.{subscribers};
ghost use Rattle.kern_calls.specs.declared.call.Call.{Call};
ghost use Rattle.kern_core.specs.States.{kernel_before_calls};
ghost use Rattle.kern_core.specs.Turns.{turn, state_after};
ghost use Rattle.kern_laws.specs.Events.{events_of, letters_of, along, BoardIsAfterEvents};
ghost use Rattle.kern_laws.specs.Laws.{requests_of, asks_to_shut_down, IsShut, reply_at_once, due_at_once};
ghost use Rattle.kern_laws.specs.Laws.{IsAddressed, IsSubscriber, ExecutionsAreAnswered, JoinsAreNew};
ghost use Rattle.kern_laws.specs.Laws.{content_about, requests_with, is_under_way, IsConversation};

/// The board is the board after the events that the calls made, which are events that `Lab::run` takes: so
/// all that is proved of `Lab::run` is proved of the kernel's board. What is posted of stops, and shown of
/// the board, is that board's at that place.
pub fn board_is_after_events()
    ensures board { (calls : List Call) → BoardIsAfterEvents calls }
    ensures fits { (calls : List Call) → All Fits (events_of calls) }
{}

/// The kernel is shut down exactly if it was asked to be, and from then on no Slice steps the board.
pub fn shutdown_is_final()
    ensures asked { (calls : List Call)
        → (state_after calls).is_shut ≡ list_any asks_to_shut_down (requests_of calls) }
    ensures idle { (calls : List Call) → (state_after calls).is_shut ≡ true → IsShut (state_after calls) }
{}

/// Each request that has a reply, and isn't an execution, gets exactly one, by the call with which it
/// arrives: of the type that belongs to it, to its connection alone, with its identities and its header as
/// parent.
pub fn requests_are_answered()
    ensures all { (calls : List Call) → filter_map reply_at_once (letters_of calls)
        ≡ along due_at_once calls kernel_before_calls }
    ensures each { (calls : List Call) (call : Call) → filter_map reply_at_once
        (turn call (state_after calls)).letters ≡ due_at_once call (state_after calls) }
{}

/// Each execution gets exactly one execute_reply, in the order of the requests. The execution counts of its
/// execute_input and its execute_reply are one, which rises by one with each execution that counts.
pub fn executions_are_answered()
    ensures { (calls : List Call) → ExecutionsAreAnswered calls }
{}

/// What is published goes to the subscribers to its topic at that moment, and all else to one connection.
pub fn posts_reach_subscribers()
    ensures posts { (calls : List Call) (call : Call)
        → All (IsAddressed call (state_after calls)) (turn call (state_after calls)).letters }
    ensures subscribers { (topic : Text) (peers : List Peer) (n : ℕ)
        → Any (λ k. k ≡ n) (subscribers topic peers) ↔ IsSubscriber topic peers n }
{}

/// A connection that joins is new: nothing that was posted before its Join is to it.
pub fn joined_connections_are_new()
    ensures { (calls : List Call) → JoinsAreNew calls }
{}

/// All posts with a request's header as parent lie between its busy and its idle, which is missing only while
/// the execution is under way. No other request may have the same header, nor may it be the `{}` of a status
/// without a request.
pub fn posts_lie_between_busy_and_idle()
    ensures { (calls : List Call) (header : Bytes) → header ≢ codes "{}" → requests_with header calls ≤ 1
        → IsConversation (is_under_way header (state_after calls).work.current)
        (filter_map (content_about header) (letters_of calls)) }
{}
