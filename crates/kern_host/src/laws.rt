//! What the pumps of a connection did, seen in the one history of all calls.
ghost use Rattle.std.specs.Prelude.{◌≡◌, ℕ, List, Contains};
ghost use Rattle.lab_turn.specs.History.{PassState, TurnstileState, IsHistoryOf};
ghost use Rattle.kern_calls.specs.declared.call.Call.{Call};
ghost use Rattle.zmtp_wire.specs.declared.handshake.Peer.{Peer};
ghost use Rattle.kern_net.specs.declared.end.PumpEnd.{PumpEnd};
ghost use Rattle.kern_net.specs.ReadEnds.{Reader};
ghost use Rattle.kern_net.specs.Reading.{ReadOut};
ghost use Rattle.kern_net.specs.Routes.{Source, Target};
ghost use Rattle.kern_net.specs.Out.{Writer, WroteOut};
ghost use Rattle.kern_host.specs.OneHistory.{IsPartOf, AsksIn, SendsIn};

/// Each pass with which a desk was closed is a part of the one history of all calls.
pub fn is_part_of_one_history()
    ensures { (turnstile : TurnstileState) (passes : List (PassState Call)) (pass : PassState Call)
        (history : List (ℕ × Call)) → IsHistoryOf turnstile passes history → Contains passes pass
        → pass.turnstile ≡ turnstile → IsPartOf pass history }
{}

/// In each history of which a reader's pass is a part, so in the one of all calls, its seat has added the
/// calls that its bytes ask for.
pub fn asked_in_one_history()
    ensures { (source : Source) (peer : Peer) (old new : Reader) (e : PumpEnd) (history : List (ℕ × Call))
        → ReadOut source peer old new e → IsPartOf new.pass history → AsksIn source peer old new history e }
{}

/// In each history of which a writer's pass is a part, so in the one of all calls, what was written are the
/// posts to its connection.
pub fn sent_in_one_history()
    ensures { (target : Target) (from : ℕ) (old new : Writer) (e : PumpEnd) (history : List (ℕ × Call))
        → WroteOut target from old new e → IsPartOf new.pass history → SendsIn target from old new history e }
{}
