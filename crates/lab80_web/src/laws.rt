//! Laws of the definitions: what holds of every session.
ghost use Rattle.std.specs.Prelude.{◌≡◌, ◌<◌, ◌↔◌, ℕ, List, [], ◌∷◌, length, true};
ghost use Rattle.std.specs.List.{filter_map};
ghost use Rattle.zmtp_wire.specs.Wire.{Bytes, Messages};
ghost use Rattle.zmtp_wire.specs.declared.peer_fault.PeerFault.{PeerFault};
ghost use Rattle.kern_core.specs.States.{KernelState, kernel_before_calls};
ghost use Rattle.kern_core.specs.Turns.{state_after};
ghost use Rattle.lab80_web.specs.declared.answer.Answer.TheVariants.{More, Ended};
ghost use Rattle.lab80_web.specs.declared.items.Item.TheVariants.{Run};
ghost use Rattle.lab80_web.specs.Outputs.{Output, OfAnswer, IsStreamOf};
ghost use Rattle.lab80_web.specs.Session.{answer_to, calls_of, outputs_of, outputs_of_item};
ghost use Rattle.lab80_web.specs.Session.{state_after_messages};
ghost use Rattle.lab80_web.specs.Serving.{Spells};
ghost use Rattle.lab80_web.specs.Laws.{post_in, calls_in, AreAllMore};

/// What is written is determined by what was read, whatever the reads and the writes were: bytes spell one
/// list of messages, and their outputs are written in one way.
pub fn output_is_determined()
    ensures messages { (read : Bytes) (m n : Messages) (e f : PeerFault) → Spells read m e → Spells read n f
        → m ≡ n }
    ensures stream { (outputs : List Output) (a b : Bytes) → IsStreamOf outputs a → IsStreamOf outputs b
        → a ≡ b }
{}

/// The state after a session is the kernel's after the calls that the items make, so that all that kern_core
/// proves of lists of calls is true of it. Each post of these calls is written exactly once, in the order of
/// their numbers.
pub fn session_is_a_kernel()
    ensures calls { (messages : Messages) → state_after_messages kernel_before_calls messages
        ≡ state_after (calls_in messages kernel_before_calls) }
    ensures posts { (messages : Messages) → filter_map post_in (outputs_of messages)
        ≡ (state_after (calls_in messages kernel_before_calls)).posts }
{}

/// A run is answered `more` exactly if each of its Slices was, and then it made as many as it might.
pub fn more_is_of_each_slice()
    ensures exactly { (s : KernelState) (unix_seconds count : ℕ)
        → (answer_to (Run unix_seconds count) s ≡ More) ↔ AreAllMore (calls_of (Run unix_seconds count) s) s }
    ensures count { (s : KernelState) (unix_seconds count : ℕ) → answer_to (Run unix_seconds count) s ≡ More
        → length (calls_of (Run unix_seconds count) s) ≡ count }
{}

/// Once the kernel is shut down, a run does nothing, and is answered `ended`.
pub fn runs_end_after_shutdown()
    ensures { (s : KernelState) (unix_seconds count : ℕ) → s.is_shut ≡ true → 0 < count
        → outputs_of_item (Run unix_seconds count) s ≡ OfAnswer Ended ∷ [] }
{}
