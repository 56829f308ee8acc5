//! Laws of the definitions.
ghost use Rattle.std.specs.Prelude.{◌≡◌, ◌≤◌, ℕ, List, length, Ok, true};
ghost use Rattle.std.specs.List.{list_all};
ghost use Rattle.base_text.specs.Bytes.{Text};
ghost use Rattle.lab_core.specs.Board.{Board};
ghost use Rattle.dap_log.specs.declared.message.LogMessage.{LogMessage};
ghost use Rattle.dap_log.specs.Pieces.{is_plain};
ghost use Rattle.dap_log.specs.Messages.{message_of, IsSpelled, HasText};

/// A message is what its text spells, piece by piece.
#[tactic(auto, using(crate::proofs::LawLemmas::message_is_spelled))]
pub fn message_is_spelled()
    ensures { (text : Text) (m : LogMessage) → message_of text ≡ Ok m → IsSpelled text m }
{}

/// A text without braces is itself on every board.
pub fn plain_is_itself()
    ensures { (text : Text) (b : Board) → length text ≤ 1024 → list_all is_plain text ≡ true
        → HasText b text text }
{}
